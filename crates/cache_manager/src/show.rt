//! Showing what is kept.
ghost use Rattle.std.specs.Prelude.{◌≡◌, ◌++◌, ◌∷◌, [], IfOk, IsTrue, OnErr, OnOk, Some, length};
ghost use Rattle.olap_meaning.specs.History.{Saw, kept};
ghost use Rattle.olap_meaning.specs.Legal.{is_next_call};
ghost use Rattle.history_core.specs.Shown.{cache_lines, kept_line};

use crate::manager::{Manager, room_for};
use cache_flush::{CacheShelf, Shelf};
use history_core::{CacheLine, CacheView, Entry};
use olap_meaning::{List, OutOfMemory, Who};
use segment_header::copy_header;

impl Manager {
    /// Shows what is kept: a line for each kept load, by rising number, with the number of flushes since its Start that
    /// touch it.
    pub fn show(&mut self, who: Who) -> Result<CacheView, OutOfMemory>
        requires call { IsTrue (is_next_call self.old.entries who) }
        ensures setting { self.new.setting ≡ self.old.setting }
        ensures entry { OnOk result (self.new.entries ≡ self.old.entries ++ Saw who ∷ []) }
        ensures position { IfOk result (λ view. view.position ≡ length self.new.entries) }
        ensures lines { IfOk result (λ view. view.lines ≡ cache_lines self.old.entries) }
        ensures unchanged { OnErr result (self.new ≡ self.old) }
    {
        let lines = self.lines()?;
        self.history.steps_are_legal();
        self.history
            .reserve(room_for(&self.flights, &self.shelf, 1)?)?;
        self.history.push(Entry::Saw { who });
        Ok(CacheView {
            position: self.history.len(),
            lines,
        })
    }

    /// The line of a kept load.
    fn line(&self, load: u64) -> Result<CacheLine, OutOfMemory>
        requires { IsTrue (kept self.now.entries load) }
        ensures { IfOk result (λ line. kept_line self.now.entries load ≡ Some line) }
    {
        let kept = self.shelf.kept(load).unwrap();
        let header = kept.body.header();
        Ok(CacheLine {
            load,
            version: kept.version,
            header: copy_header(self.alloc, header)?,
            flushes: kept.flushes(self.shelf.shut_list()),
        })
    }

    /// The lines of the kept loads, by rising number.
    fn lines(&self) -> Result<List<CacheLine>, OutOfMemory>
        ensures { IfOk result (λ lines. lines ≡ cache_lines self.now.entries) }
    {
        let numbers = self.shelf.numbers()?;
        let mut lines = List::new(self.alloc);
        for number in numbers.as_slice() {
            lines.push(self.line(*number)?)?;
        }
        Ok(lines)
    }
}
