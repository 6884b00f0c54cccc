// Pages in runs: the runs of a kind of pages, one by one, as an iterator.
ghost use Rattle.std.specs.Prelude.{◌≡◌, ◌+◌, ◌<◌, ◌≤◌, ℕ, List, [], ◌∷◌, IsTrue, MatchOption, IfSome, length, bit_or};
ghost use Rattle.std.specs.List.{fold};
ghost use Rattle.std.specs.Iterator.{YieldsFirstBy, item_count};
ghost use Rattle.recordfile.specs.Snapshots.{SourceRun};
ghost use Rattle.snapshot.specs.Runs.{Run, continues, dirty_from, sources_from};
ghost use Rattle.snapshot.specs.Walk.{group, joined_alone, meets, both, both_sources, run_of, dirty_before, DirtyEnds, source_of, source_before, SourceEnds};

use memory::{FLAG_DIRTY, PAGE};
use tracking::records::{TRACKED, Tracking, WORDS};

// The pages that are passed over together.
const GROUP: usize = 32;

// Pages of which some are in runs.
pub(crate) trait Pages: Copy {
    type Run: Copy;

    // A run, as the definitions have it.
    ghost Seen: { Type 0 };

    ghost seen: { Self.Run → Seen };

    // How many pages there are.
    ghost size: { Self → ℕ };

    // The runs from a page on.
    ghost runs: { Self → ℕ → List Seen };

    // A run before others, merged with the first where they meet.
    ghost before: { Self.Run → List Seen → List Seen };

    // A run's pages end before this page.
    ghost Ends: { Self.Run → ℕ → Type 0 };

    fn len(&self) -> usize
        ensures value { result ≡ size self.now }
        ensures past { (p : ℕ) → size self.now ≤ p → runs self.now p ≡ [] };

    // The run of one page, if it is in any.
    fn first(&self, page: usize) -> Option<Self::Run>
        requires { page < size self.now }
        ensures value { MatchOption result (runs self.now page ≡ runs self.now (page + 1)) (λ run. runs self.now page ≡ before run (runs self.now (page + 1))) }
        ensures ends { IfSome result (λ run. Ends run (page + 1)) };

    // A run with the page after it, if that continues it.
    fn longer(&self, run: Self::Run, next: usize) -> Option<Self::Run>
        requires within { next < size self.now }
        requires ends { Ends run next }
        ensures value { MatchOption result (before run (runs self.now next) ≡ seen run ∷ runs self.now next) (λ more. before run (runs self.now next) ≡ before more (runs self.now (next + 1))) }
        ensures ends { IfSome result (λ more. Ends more (next + 1)) };

    // Whether none of a group of pages is in a run.
    fn none_in(&self, page: usize) -> bool
        requires { page + group ≤ size self.now }
        ensures { IsTrue result → runs self.now page ≡ runs self.now (page + group) };

    ghost alone: { (run : Self.Run) → before run [] ≡ seen run ∷ [] };
}

// Pages, and the page from which their runs are read next.
#[derive(Clone, Copy)]
pub(crate) struct Runs<P: Pages> {
    pages: P,
    at: usize,
}

impl<P: Pages> Runs<P> {
    // All runs of pages.
    pub(crate) fn new(pages: P) -> Self
        ensures pages { result.pages ≡ pages }
        ensures first { result.at ≡ 0 }
    {
        Runs { pages, at: 0 }
    }
}

// A page after this one, which is in no run, with only such pages between: past its group where it starts a group of those.
fn passed<P: Pages>(pages: P, page: usize) -> usize
    requires within { page < P.size pages }
    requires none { P.runs pages page ≡ P.runs pages (page + 1) }
    ensures value { P.runs pages page ≡ P.runs pages result }
    ensures above { page < result }
{
    let len = pages.len();
    if page % GROUP == 0 && len - page >= GROUP && pages.none_in(page) {
        page + GROUP
    } else {
        page + 1
    }
}

// The run that begins with this one, and the page after it.
fn whole<P: Pages>(pages: P, run: P::Run, after: usize) -> (P::Run, usize)
    requires ends { P.Ends run after }
    requires within { after ≤ P.size pages }
    ensures { P.before run (P.runs pages after) ≡ P.seen result.0 ∷ P.runs pages result.1 }
{
    let mut run = run;
    let len = pages.len();
    for next in after..len {
        let Some(more) = pages.longer(run, next) else {
            return (run, next);
        };
        run = more;
    }
    (run, len)
}

// The runs from its page on. Inlined, so that a run lies in registers where it is used.
impl<P: Pages> Iterator for Runs<P> {
    type Item = P::Run;

    ghost next_gives = { YieldsFirstBy P.seen (λ s. P.runs s.pages s.at) };

    ghost remaining = { item_count (λ s. P.runs s.pages s.at) };

    // A `while`: the page goes on by one or by a group, which no range does.
    #[inline(always)]
    fn next(&mut self) -> Option<P::Run> {
        let pages = self.pages;
        let len = pages.len();
        let mut page = self.at;
        while page < len {
            if let Some(run) = pages.first(page) {
                let (run, next) = whole(pages, run, page + 1);
                self.at = next;
                return Some(run);
            }
            page = passed(pages, page);
        }
        self.at = page;
        None
    }
}

// A run of dirty pages of one flag, without their bytes, which `DirtyRun` of the definitions has.
#[derive(Clone, Copy)]
pub(crate) struct DirtySpan {
    pub(crate) page: usize,
    pub(crate) flag: u8,
    pub(crate) pages: usize,
}

// Dirty pages, by their flags.
#[derive(Clone, Copy)]
pub(crate) struct DirtyPages<'a> {
    pub(crate) flags: &'a [u8],
}

// Flags joined, bit by bit.
fn joined(flags: &[u8]) -> u8
    ensures { result ≡ fold bit_or 0 flags.now }
{
    flags.iter().fold(0, |all, flag| all | *flag)
}

impl<'a> Pages for DirtyPages<'a> {
    type Run = DirtySpan;

    ghost Seen = { Run };

    ghost seen = { run_of };

    ghost size = { λ s. length s.flags.now };

    ghost runs = { λ s p. dirty_from s.flags.now p };

    ghost before = { dirty_before };

    ghost Ends = { DirtyEnds };

    ghost alone = { λ r. joined_alone meets both (run_of r) };

    #[tactic(auto, using(crate::proofs::DirtyPages::dirty_past))]
    fn len(&self) -> usize {
        self.flags.len()
    }

    #[tactic(auto, using(crate::proofs::DirtyPages::dirty_clean, crate::proofs::DirtyPages::dirty_single))]
    fn first(&self, page: usize) -> Option<DirtySpan> {
        let flag = self.flags[page];
        if flag & FLAG_DIRTY == 0 {
            return None;
        }
        Some(DirtySpan {
            page,
            flag,
            pages: 1,
        })
    }

    #[tactic(auto, using(crate::proofs::DirtyPages::dirty_stops, crate::proofs::DirtyPages::dirty_takes))]
    fn longer(&self, run: DirtySpan, next: usize) -> Option<DirtySpan> {
        if self.flags[next] != run.flag {
            return None;
        }
        Some(DirtySpan {
            pages: run.pages + 1,
            ..run
        })
    }

    #[tactic(auto, using(crate::proofs::Groups::clean_passed))]
    fn none_in(&self, page: usize) -> bool {
        joined(&self.flags[page..page + GROUP]) & FLAG_DIRTY == 0
    }
}

// A run of tracked clean pages by its first, with the offset of its last page; `SourceRun` of the definitions has its address.
#[derive(Clone, Copy)]
pub(crate) struct SourceSpan {
    pub(crate) page: usize,
    pub(crate) flag: u8,
    pub(crate) id: u64,
    pub(crate) offset: u64,
    pub(crate) pages: usize,
    pub(crate) last: u64,
}

// Tracked clean pages, by their flags and records.
#[derive(Clone, Copy)]
pub(crate) struct SourcePages<'a> {
    pub(crate) flags: &'a [u8],
    pub(crate) records: &'a [u64],
}

impl<'a> Pages for SourcePages<'a> {
    type Run = SourceSpan;

    ghost Seen = { SourceRun };

    ghost seen = { source_of };

    ghost size = { λ s. length s.flags.now };

    ghost runs = { λ s p. sources_from s.flags.now s.records.now p };

    ghost before = { source_before };

    ghost Ends = { SourceEnds };

    ghost alone = { λ r. joined_alone continues both_sources (source_of r) };

    #[tactic(auto, using(crate::proofs::SourcePages::sources_past))]
    fn len(&self) -> usize {
        self.flags.len()
    }

    #[tactic(auto, using(crate::proofs::SourcePages::source_none, crate::proofs::SourcePages::source_single))]
    fn first(&self, page: usize) -> Option<SourceSpan> {
        let Tracking::Tracked(id, offset, flag) = tracking::records::entry_at(
            self.flags,
            self.records,
            page as u64,
        ) else {
            return None;
        };
        Some(SourceSpan {
            page,
            flag,
            id,
            offset,
            pages: 1,
            last: offset,
        })
    }

    fn longer(&self, run: SourceSpan, next: usize) -> Option<SourceSpan> {
        let Tracking::Tracked(id, offset, flag) = tracking::records::entry_at(
            self.flags,
            self.records,
            next as u64,
        ) else {
            return None;
        };
        if flag != run.flag || id != run.id || offset < PAGE || offset - PAGE != run.last {
            return None;
        }
        Some(SourceSpan {
            pages: run.pages + 1,
            last: offset,
            ..run
        })
    }

    #[tactic(auto, using(crate::proofs::Groups::low_on))]
    fn none_in(&self, page: usize) -> bool {
        if self.records.len() / WORDS < page + GROUP {
            return false;
        }
        // The mark, one of three words of the array that C lends.
        let mut marks = 0;
        for next in page..page + GROUP {
            marks |= self.records[next * WORDS + 2];
        }
        marks < TRACKED
    }
}
