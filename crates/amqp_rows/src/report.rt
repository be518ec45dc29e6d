//! What is printed of a table.
ghost use Rattle.std.specs.Prelude.{◌≡◌, ◌+◌, ◌++◌, ◌-◌, ◌<◌, ◌^◌, IfOk, OnOk, string_bytes};
ghost use Rattle.amqp_rows.specs.Rows.{tally_of, nothing_told, printed, judged, all_text, status_of, closing_text};
ghost use Rattle.amqp_rows.specs.Rows.{differing_text};

use std::alloc::{AllocError, Global};

/// What is printed of a table's lines, and how many of its rows hold.
#[derive(Debug, Drop)]
pub struct Report {
    /// What is printed so far.
    pub output: String,
    /// How many rows have the answer that is wanted.
    pub held: usize,
    /// How many have another.
    pub differing: usize,
}

impl Report {
    /// Of no lines.
    pub fn new(alloc: Global) -> Report
        ensures { tally_of result ≡ nothing_told }
    {
        Report {
            output: String::new(alloc),
            held: 0,
            differing: 0,
        }
    }

    /// Prints a line.
    pub fn print(&mut self, text: &str) -> Result<(), AllocError>
        ensures { OnOk result (tally_of self.new ≡ printed text.now (tally_of self.old)) }
    {
        writeln!(&mut self.output, "{text}")
    }

    /// Counts the row of the line `number`, and prints it where it differs.
    pub fn judge(
        &mut self,
        number: usize,
        given: &str,
        wanted: &str,
        answer: &str,
    ) -> Result<(), AllocError>
        requires { self.now.held + self.now.differing < 2 ^ 64 - 1 }
        ensures { OnOk result
            (tally_of self.new
            ≡ judged number given.now wanted.now answer.now (tally_of self.old)) }
    {
        if answer == wanted {
            self.held += 1;
            return Ok(());
        }
        writeln!(
            &mut self.output,
            "line {number}: {given} => {answer}, not {wanted}"
        )?;
        self.differing += 1;
        Ok(())
    }

    /// 0 where no row differs, else 1.
    pub fn status(&self) -> u8
        ensures { result ≡ status_of (tally_of self.now) }
    {
        (self.differing > 0) as u8
    }

    /// All that is printed: behind the lines how many rows hold and how many differ, where there were rows.
    pub fn into_text(self) -> Result<String, AllocError>
        ensures { IfOk result (λ text. string_bytes text ≡ all_text (tally_of self)) }
    {
        let Report {
            mut output,
            held,
            differing,
        } = self;
        print_counts(&mut output, held, differing)?;
        Ok(output)
    }
}

fn print_counts(output: &mut String, held: usize, differing: usize) -> Result<(), AllocError>
    ensures { OnOk result
        (string_bytes output.new ≡ string_bytes output.old ++ closing_text held differing) }
{
    if held == 0 && differing == 0 {
        return Ok(());
    }
    writeln!(output, "{held} rows hold")?;
    print_differing(output, differing)
}

fn print_differing(output: &mut String, differing: usize) -> Result<(), AllocError>
    ensures { OnOk result (string_bytes output.new ≡ string_bytes output.old
        ++ differing_text differing) }
{
    if differing > 0 {
        writeln!(output, "{differing} rows differ")?;
    }
    Ok(())
}
