// A text at the front of an area.
ghost use Rattle.std.specs.Prelude.{◌≤◌, length};

#[derive(Drop)]
pub struct TextArea<'a> {
    pub(crate) area: &'a mut [u8],
    pub(crate) len: usize,
    ghost within: { len ≤ length area.now },
}
