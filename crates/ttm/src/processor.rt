// What a processor keeps from call to call. It allocates when it is made, and never after.
ghost use Rattle.std.specs.Prelude.{◌≡◌, ◌≤◌, None, length};
ghost use Rattle.machine.specs.Calls.{make_refusal};

use code::Code;
use dictionary::Dictionary;
use machine::Limits;
use scan::Roll;
use signs::Signs;

#[derive(Drop)]
pub struct Processor<C: Code> {
    pub(crate) signs: Signs<C>,
    pub(crate) limits: Limits,
    pub(crate) dictionary: Dictionary,
    pub(crate) roll: Roll,
    // how many numbers were created
    pub(crate) created: usize,
    // for the name of a call that is refused
    pub(crate) called: Vec<u8>,
    // for a text that is marked while its marks are counted
    pub(crate) scratch: Vec<u8>,
    ghost granted: { make_refusal limits ≡ None },
    ghost rows_fit: { limits.names ≤ dictionary.most_rows },
    ghost store_fits: { dictionary.used ≤ limits.store },
    ghost roll_fits: { limits.roll ≤ roll.limit },
    ghost called_fits: { length called.items ≡ limits.scan },
    ghost scratch_fits: { limits.store ≤ length scratch.items },
}
