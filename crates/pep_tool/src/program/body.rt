//! The text of a reply.

ghost use Rattle.std.specs.Prelude.{◌≡◌};

use devices::Printed;
use pep_table::Printout;
use texts::TextOut;

/// What is printed of a reply: a text at hand, or that of a table, which is never held as a whole.
#[derive(Drop)]
pub(crate) enum Body {
    Text(String),
    Table(Printout),
}

impl Printed for Body {
    ghost use Rattle.pep_tool.specs.Body.{body_text};

    ghost text = { body_text };

    fn put_text<T: TextOut>(&self, out: &mut T) -> Result<(), T::Fault> {
        match self {
            Body::Text(text) => out.put_str(text.as_str()),
            Body::Table(printout) => printout.put_text(out),
        }
    }
}
