// The original built-ins.
ghost use Rattle.std.specs.Prelude.{◌≡◌};
ghost use Rattle.std.specs.Option.{option_map};
ghost use Rattle.machine.specs.declared.built_in.BuiltIn.{BuiltIn};
ghost use Rattle.machine.specs.BuiltIns.{built_in_named};
ghost use Rattle.machine.specs.Dictionary.{built_in, if_stands, without_original};
ghost use Rattle.dictionary.specs.Meant.{stands};

use built_ins::{find_built_in, place_of};
use code::Code;
use machine::BuiltIn;
use signs::Signs;

// The built-in of that name, if it stands.
pub(crate) fn original<C: Code>(
    originals: &[bool; 46],
    signs: &Signs<C>,
    name: &[u8],
) -> Option<BuiltIn>
    ensures { option_map built_in result ≡ if_stands (stands originals.now) (built_in_named C.Code.meaning name.now) }
{
    let function = find_built_in(signs, name)?;
    originals[place_of(function)].then_some(function)
}

// The built-in of that name goes.
pub(crate) fn remove_original<C: Code>(originals: &mut [bool; 46], signs: &Signs<C>, name: &[u8])
    ensures { (f : BuiltIn) → stands originals.new f ≡ without_original C.Code.meaning name.now (stands originals.old) f }
{
    if let Some(function) = find_built_in(signs, name) {
        originals[place_of(function)] = false;
    }
}
