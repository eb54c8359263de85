//! The text of a table that is yet to be written.

ghost use Rattle.std.specs.Prelude.{◌≡◌, ◌++◌, ◌∷◌, [], IfOk, OnErr, OnOk, string_bytes};
ghost use Rattle.demands.specs.Table.{IsValidEntry};
ghost use Rattle.pep_table.specs.TableText.{Shows};
ghost use Rattle.texts.specs.TextOut.{Extends};

use crate::text::put_finished;
use demands::{Finished, PackageDemands, Verdict};
use pep_marker::Name;
use std::alloc::{AllocError, Global};
use std::marker::Model;
use std::mem;
use texts::TextOut;

// So many rows stand in one block. It takes no more room than what was gathered of as many names.
const BLOCK: usize = 8;

/// What is demanded of one name in all, and the verdict on it.
#[derive(Drop)]
pub(crate) struct Row {
    name: Name,
    finished: Finished,
    verdict: Verdict,
}

impl Row {
    ghost use Rattle.pep_table.specs.Way.Printout.{row_text};

    /// What is gathered of a name, finished and judged.
    pub(crate) fn of(alloc: Global, name: Name, gathered: PackageDemands) -> Result<Row, AllocError>
        requires { IsValidEntry gathered }
        ensures name { IfOk result (λ row. row.name ≡ name) }
        ensures same { IfOk result (λ row. row.finished ≡ gathered) }
        ensures shows { IfOk result (λ row. Shows row.finished row.verdict) }
    {
        let finished = gathered.finish(alloc)?;
        let verdict = finished.verdict(alloc)?;
        Ok(Row {
            name,
            finished,
            verdict,
        })
    }

    /// Writes its lines.
    pub(crate) fn put_text<T: TextOut>(&self, text: &mut T) -> Result<(), T::Fault>
        ensures ok { OnOk result (T.tells → T.written text.new ≡ T.written text.old
            ++ row_text self.now) }
        ensures kept { OnErr result (T.tells → Extends (T.written text.old) (T.written text.new)) }
    {
        put_finished(text, &self.name, self.verdict, &self.finished)
    }
}

// Rows in blocks, so that no large room is wanted for them. Clauses see the list of them.
#[derive(Drop)]
pub(crate) struct Rows {
    full: Vec<Vec<Row>>,
    last: Vec<Row>,
}

impl Model for Rows {
    ghost use Rattle.std.specs.Prelude.{List, ◌++◌};
    ghost use Rattle.pep_table.specs.Way.Printout.{in_blocks};
    ghost use Rattle.pep_table.specs.declared.printout.Row.{Row};

    ghost Value = { List Row };

    ghost view = { λ r. in_blocks r.full.items ++ r.last.items };
}

impl Rows {
    ghost use Rattle.pep_table.specs.Way.Printout.{in_blocks, rows_text};

    /// None.
    pub(crate) fn new(alloc: Global) -> Result<Rows, AllocError>
        ensures { IfOk result (λ rows. rows ≡ []) }
    {
        Ok(Rows {
            full: Vec::new(alloc),
            last: Vec::with_capacity(alloc, BLOCK)?,
        })
    }

    /// Puts a row behind them.
    pub(crate) fn put(&mut self, alloc: Global, row: Row) -> Result<(), AllocError>
        ensures { OnOk result (self.new ≡ self.old ++ row ∷ []) }
    {
        if self.last.len() == BLOCK {
            let block = mem::replace(&mut self.last, Vec::with_capacity(alloc, BLOCK)?);
            self.full.push(block)?;
        }
        self.last.push(row)?;
        Ok(())
    }

    // Writes the lines of rows.
    fn put_rows<T: TextOut>(text: &mut T, rows: &[Row]) -> Result<(), T::Fault>
        ensures ok { OnOk result (T.tells → T.written text.new ≡ T.written text.old
            ++ rows_text rows.now) }
        ensures kept { OnErr result (T.tells → Extends (T.written text.old) (T.written text.new)) }
    {
        for row in rows {
            row.put_text(text)?;
        }
        Ok(())
    }

    // Writes the lines of the rows of blocks.
    fn put_blocks<T: TextOut>(text: &mut T, blocks: &[Vec<Row>]) -> Result<(), T::Fault>
        ensures ok { OnOk result (T.tells → T.written text.new ≡ T.written text.old
            ++ rows_text (in_blocks blocks.now)) }
        ensures kept { OnErr result (T.tells → Extends (T.written text.old) (T.written text.new)) }
    {
        for block in blocks {
            Rows::put_rows(text, block.as_slice())?;
        }
        Ok(())
    }

    // Writes the lines of all of them.
    fn put_text<T: TextOut>(&self, text: &mut T) -> Result<(), T::Fault>
        ensures ok { OnOk result (T.tells → T.written text.new ≡ T.written text.old
            ++ rows_text self.now) }
        ensures kept { OnErr result (T.tells → Extends (T.written text.old) (T.written text.new)) }
    {
        Rows::put_blocks(text, self.full.as_slice())?;
        Rows::put_rows(text, self.last.as_slice())
    }
}

/// The text of a table that is yet to be written: all that wants memory for it is done. Clauses see the text.
#[derive(Drop)]
pub struct Printout {
    header: String,
    rows: Rows,
}

impl Model for Printout {
    ghost use Rattle.std.specs.Prelude.{List, ℕ, ◌++◌, string_bytes};
    ghost use Rattle.pep_table.specs.Way.Printout.{rows_text};

    ghost Value = { List ℕ };

    ghost view = { λ p. string_bytes p.header ++ rows_text p.rows };
}

impl Printout {
    ghost use Rattle.pep_table.specs.Way.Printout.{rows_text};

    /// The header, and the lines of the rows.
    pub(crate) fn of_rows(header: String, rows: Rows) -> Printout
        ensures { result ≡ string_bytes header ++ rows_text rows }
    {
        Printout { header, rows }
    }

    /// Writes the text, wherever it goes. It needs no memory.
    pub fn put_text<T: TextOut>(&self, text: &mut T) -> Result<(), T::Fault>
        ensures ok { OnOk result (T.tells → T.written text.new ≡ T.written text.old ++ self.now) }
        ensures kept { OnErr result (T.tells → Extends (T.written text.old) (T.written text.new)) }
    {
        text.put_str(self.header.as_str())?;
        self.rows.put_text(text)
    }
}
