// What a processor has limits of.
ghost use Rattle.std.specs.Prelude.{◌≡◌};
ghost use Rattle.machine.specs.Chain.{bounds as bounds_of};

#[derive(Clone, Copy, Debug, PartialEq, Eq)]
pub struct Limits {
    pub names: usize,
    pub roll: usize,
    pub store: usize,
    pub scan: usize,
    pub print: usize,
}

// An amount of each thing that an expansion counts: what bounds it, or what it needed.
#[derive(Clone, Copy, Debug, Default, PartialEq, Eq)]
pub struct Amounts {
    // strings and copied built-ins
    pub names: usize,
    // entries of the roll
    pub roll: usize,
    // bytes of names and bodies
    pub store: usize,
    // bytes of left text, right text and value
    pub scan: usize,
    // bytes printed
    pub print: usize,
    pub steps: usize,
}

impl Limits {
    // What bounds an expansion: these limits, and an allowance of steps.
    pub fn with_allowance(self, allowance: usize) -> Amounts
        ensures { result ≡ bounds_of self allowance }
    {
        let Limits {
            names,
            roll,
            store,
            scan,
            print,
        } = self;
        Amounts {
            names,
            roll,
            store,
            scan,
            print,
            steps: allowance,
        }
    }
}
