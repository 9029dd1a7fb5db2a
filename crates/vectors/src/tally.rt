// How far the data is compared, and what came of it.
ghost use Rattle.std.specs.Prelude.{◌≡◌};
ghost use Rattle.vectors.specs.Tallies.{more, nothing_yet, malformed_at, moved_to, with_table, with_layout, with_equal, with_different};

use crate::printing::print;

#[derive(Clone, Copy, Debug, PartialEq, Eq)]
pub struct Tally {
    // the place in the data
    pub at: usize,
    pub tables: u64,
    // the layouts of the table so far
    pub layouts: u64,
    pub compared: u64,
    pub different: u64,
    // the data was as it must be so far
    pub well_formed: bool,
}

impl Tally {
    pub fn nothing() -> Self
        ensures { result ≡ nothing_yet }
    {
        Self {
            at: 0,
            tables: 0,
            layouts: 0,
            compared: 0,
            different: 0,
            well_formed: true,
        }
    }

    // Data that is not as it must be.
    pub fn malformed(mut self) -> Self
        ensures { result ≡ malformed_at self }
    {
        self.well_formed = false;
        self
    }

    pub fn moved_to(mut self, at: usize) -> Self
        ensures { result ≡ moved_to at self }
    {
        self.at = at;
        self
    }

    pub fn with_table(mut self) -> Self
        ensures { result ≡ with_table self }
    {
        self.tables = more(self.tables);
        self.layouts = 0;
        self
    }

    pub fn with_layout(mut self) -> Self
        ensures { result ≡ with_layout self }
    {
        self.layouts = more(self.layouts);
        self
    }

    pub fn with_equal(mut self) -> Self
        ensures { result ≡ with_equal self }
    {
        self.compared = more(self.compared);
        self
    }

    pub fn with_different(mut self) -> Self
        ensures { result ≡ with_different self }
    {
        self.compared = more(self.compared);
        self.different = more(self.different);
        self
    }

    // Tables and layouts are counted from 1; a line with layout 0 is of an answer that needs none.
    pub fn print_difference(self, rt: &impl Print, name: &str) {
        let table = self.tables;
        let layout = self.layouts;
        print(
            rt,
            format_args!("table {table}, layout {layout}: {name} differs\n"),
        );
    }

    pub fn print_end(self, rt: &impl Print) {
        let at = self.at;
        if !self.well_formed {
            print(rt, format_args!("malformed data at byte {at}\n"));
        }
        let tables = self.tables;
        let compared = self.compared;
        let different = self.different;
        print(
            rt,
            format_args!("{tables} tables, {compared} answers compared, {different} different\n"),
        );
    }
}

// One more, as far as can be counted.
#[tactic(auto, using(crate::proofs::TallyLaws::one_more))]
fn more(count: u64) -> u64
    ensures { result ≡ more count }
{
    count.saturating_add(1)
}
