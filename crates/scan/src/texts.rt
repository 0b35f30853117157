// The area of a scan: the left text begins it, the right text ends it, and what lies between is free.
ghost use Rattle.std.specs.Prelude.{◌≤◌, length};

#[derive(Drop)]
pub struct ScanTexts<'a> {
    pub(crate) area: &'a mut [u8],
    // where the left text ends
    pub(crate) left: usize,
    // where the right text begins
    pub(crate) right: usize,
    ghost ordered: { left ≤ right },
    ghost within: { right ≤ length area.now },
}
