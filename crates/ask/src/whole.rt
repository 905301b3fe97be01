// A question in bytes, read and entered into the whole lent memory: what a search is asked.
ghost use Rattle.memory.specs.Meaning.{Wf};
ghost use Rattle.ask.specs.Reading.{ReadInto};

use super::enter_question;
use formula::Refusal;
use memory::FORMULAS;
use question::read_question;
use zones::Zones;

// Reads a question of either kind and enters it: the sequent to be searched. A refusal leaves every word as it is: 2 to 6 in reading, in document 01's order, then 7.
pub fn read_into(mem: &mut [u16], s: &[u8]) -> Result<Zones, Refusal>
    requires { Wf mem.old }
    ensures { ReadInto mem.old s.now result mem.new }
{
    let places = read_question(s)?;
    enter_question(&mut mem[..FORMULAS], s, places).ok_or(Refusal::HeldFull)
}
