// The strings of a program that a script stores.
ghost use Rattle.std.specs.Prelude.{◌≡◌};
ghost use Rattle.library.specs.Views.{string_viewed};
ghost use Rattle.library_cases.specs.Handed.{named, handed};

use library::{Source, StringView};

#[derive(Drop)]
pub struct Text {
    pub name: Vec<u8>,
    pub body: Vec<u8>,
}

impl Text {
    fn view(&self) -> StringView<'_>
        ensures { string_viewed result ≡ named self.now }
    {
        StringView {
            name: &self.name,
            body: &self.body,
        }
    }
}

#[derive(Drop)]
pub struct Strings {
    pub texts: Vec<Text>,
}

impl Source for Strings {
    ghost strings = { handed };

    fn count(&self) -> usize {
        self.texts.len()
    }

    fn string(&self, string: usize) -> Option<StringView<'_>> {
        self.texts.get(string).map(Text::view)
    }
}
