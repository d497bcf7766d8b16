// The rows of the sites: what each has published and kept. Values and continuations are published and kept by one call, `add`; what
// stands here names the table. That a site has a row is asked by each: it hangs on the site that is handed over.
ghost use Rattle.std.specs.Prelude.{◌≡◌, ℕ, ◌+◌, ◌<◌, ◌≤◌, length};
ghost use Rattle.machine.specs.Store.{Takes, Published, Kept, PublishedAt, KeptAt, published_count, kept_count};
ghost use Rattle.lines.specs.declared.refusal.Table.TheVariants.{Published as of_published, Kept as of_kept};

use crate::parts::*;
use crate::store::add;

impl Store {
    // The number of the new value at its site is its label.
    pub(crate) fn publish(&mut self, site: u16, value: Value) -> Result<u16, StepFault>
        requires { site < length self.old.rows }
        ensures { Takes result of_published 128 (published_count self.old site + 1) (self.new ≡ self.old) (λ label. Published self.old self.new site value label) }
    {
        add(
            &mut self.rows[site as usize].published,
            value,
            Table::Published,
        )
    }

    pub(crate) fn keep(&mut self, site: u16, continuation: Continuation) -> Result<u16, StepFault>
        requires { site < length self.old.rows }
        ensures { Takes result of_kept 256 (kept_count self.old site + 1) (self.new ≡ self.old) (λ kept. Kept self.old self.new site continuation kept) }
    {
        add(
            &mut self.rows[site as usize].kept,
            continuation,
            Table::Kept,
        )
    }

    pub(crate) fn published(&self, site: u16, label: u16) -> Option<Value>
        requires { site < length self.now.rows }
        ensures { PublishedAt self.now site label result }
    {
        self.rows[site as usize].published.get(label as usize)
    }

    pub(crate) fn kept(&self, site: u16, kept: u16) -> Option<Continuation>
        requires { site < length self.now.rows }
        ensures { KeptAt self.now site kept result }
    {
        self.rows[site as usize].kept.get(kept as usize)
    }
}
