//! The reader of a whole text.
ghost use Rattle.std.specs.Prelude.{◌≡◌, ◌⊎◌, ◌≤◌, length, IfOk, IfErr, Ok, Err};
ghost use Rattle.text_scripts.specs.script_read.Script.{script_of};
ghost use Rattle.law_model.specs.Common.{IsValid, HasFewLosses, longest_input};

use crate::script_read::script_fault::ScriptFault;
use crate::script_read::script_reader::ScriptReader;
use law_model::Script;
use std::alloc::Global;

/// The script of a text of at most 67,108,864 octets. Else its first fault: that of the first faulty line,
/// counted from 1; or, where no line has one, the first that fails of the tests of slips, spread and lag.
/// Want of memory may come in place of any answer. What a script that is given meets is `IsValid`,
/// and it has at most 256 return windows.
pub fn read_script(alloc: Global, text: &[u8]) -> Result<Script, ScriptFault>
    requires { length text.now ≤ longest_input }
    ensures script { IfOk result (λ script. script_of text.now ≡ Ok script) }
    ensures valid { IfOk result IsValid }
    ensures few_lost { IfOk result HasFewLosses }
    ensures fault { IfErr result (λ fault.
        (fault ≡ ScriptFault.Memory) ⊎ (script_of text.now ≡ Err fault)) }
{
    ScriptReader::new(alloc).finish(alloc, text)
}
