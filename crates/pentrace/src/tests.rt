use super::*;
use console::pieces::{OneByteReader, OneByteWriter};

// The bytes of a script come, and those of its answers go, one a call.
#[test]
fn answers_a_script_in_whatever_pieces(rt: HostRuntime) -> Result<(), LineError> {
    let script = b"take\nopen 2\r\nput 0 1 10\nput 1 2 -3\n\nbegin\ntake\nopen 0";
    let mut out = OneByteWriter::new(rt.alloc());
    let input = BufReader::new(rt.alloc(), OneByteReader::new(script))?;
    let end = run_script(rt.alloc(), input, &mut out)?;
    let want = b"take 40: no sheet is open
open 2: done
put 0 1 10: done
put 1 2 -3: done
line 5: no call
begin: done
take 40: tree 1, weight 7, heads 0 1
open 0: refused 1
";
    assert!(rt; matches!(end, ScriptEnd::Whole) && out.taken() == want.as_slice());
    Ok(())
}
