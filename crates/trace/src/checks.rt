// The check of a trace's form: refusal 13 where the first line of another form starts.
ghost use Rattle.std.specs.Prelude.{◌≡◌, length};
ghost use Rattle.trace.specs.Traces.{lines_check, form_check, begun};

use crate::lines::{first_line, line_at};
use crate::{Beginning, LONGEST_TRACE};
use model::refusals::{Reason, Refusal};

// The lines from `at` on.
fn lines(s: &[u8], at: usize) -> Result<(), Refusal>
    ensures { result ≡ lines_check (length s.now) s.now at }
{
    let mut q = at;
    for _ in 0..s.len() {
        if s.len() <= q {
            return Ok(());
        }
        let line = line_at(s, q);
        Reason::BadLine.unless(q < line.next, q)?;
        Reason::BadLine.unless(line.next <= LONGEST_TRACE, q)?;
        q = line.next;
    }
    Ok(())
}

// Checks the form of a text of any bytes.
pub fn begin(s: &[u8]) -> Result<Beginning, Refusal>
    ensures { result ≡ begun (form_check s.now) s.now }
{
    let first = first_line(s);
    Reason::BadLine.unless(0 < first.next, 0)?;
    lines(s, first.next)?;
    Ok(Beginning {
        t: first.t,
        p: first.p,
        at: first.next,
    })
}
