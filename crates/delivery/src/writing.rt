// The last question of a call, and the writing of its value.
ghost use Rattle.std.specs.Prelude.{◌≡◌, IfOk, IfErr};
ghost use Rattle.machine.specs.World.{World};
ghost use Rattle.meter.specs.Metered.{Asks};
ghost use Rattle.scan.specs.Texts.{SameArea};
ghost use Rattle.scan.specs.Making.{Fits};
ghost use Rattle.scan.specs.Standing.{state_in};
ghost use Rattle.delivery.specs.Deliveries.{StandsIn, value_in, need_of, delivery_of, Written};

use crate::delivery::Delivery;
use crate::environment::Environment;
use code::Code;
use library::Reader;
use meter::{Meter, Question};
use refusal::Refusal;
use scan::{Roll, ScanTexts};
use signs::Signs;
use value::Value;

impl Delivery {
    // The scan has to hold the left text with the call in it, the right text and the value. If it does, the value is
    // written, and the text of the call is still there; if not, nothing has changed.
    pub fn write_value<C: Code, R: Reader>(
        self,
        signs: &Signs<C>,
        environment: &Environment<'_, R>,
        value: Value,
        texts: &mut ScanTexts<'_>,
        roll: &Roll,
        meter: &mut Meter,
    ) -> Result<(), Refusal>
        requires stands { StandsIn environment.now.dictionary.now value }
        requires fits { Fits texts.old roll.now meter.old }
        ensures asks { (w : World) → Asks Question.Value (need_of (value_in C.Code.meaning environment.now value (state_in texts.old roll.now w)) (state_in texts.old roll.now w)) meter.old meter.new result }
        ensures written { (breaks : _) (w : World) → self ≡ delivery_of breaks (state_in texts.old roll.now w) → IfOk result (λ _. Written self breaks (value_in C.Code.meaning environment.now value (state_in texts.old roll.now w)) (state_in texts.old roll.now w) texts.new roll.now) }
        ensures undone { IfErr result (λ _. texts.new ≡ texts.old) }
        ensures same_area { SameArea texts.old texts.new }
    {
        let n = environment.value_length(signs, value, texts, roll);
        let held = texts.left().len() + texts.right().len();
        meter.put(Question::Value, held.saturating_add(n))?;
        self.write_in_place(signs, environment, value, n, texts, roll);
        Ok(())
    }
}
