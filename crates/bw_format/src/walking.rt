//! A walk over the steps of a pattern, which are taken one after another for each character.
ghost use Rattle.std.specs.Prelude.{◌≡◌, ◌≤◌, map, length, take, get_or, set, replicate, false};
ghost use Rattle.bw_format.specs.Steps as spec;
ghost use Rattle.bw_format.specs.declared.limits.TheConstants.{MAX_PATTERN_CHARS};

use crate::limits::MAX_PATTERN_CHARS;
use crate::steps::Step;

/// Whether a text could have ended before a character, and whether it may behind it.
#[derive(Clone, Copy)]
pub struct Ends {
    pub before: bool,
    pub behind: bool,
}

/// What a walk remembers: the ends at which it is, the marks of the places, whether the inside of each repetition may
/// end at them, and the ends in front of what is open.
#[derive(Drop)]
pub struct Walk {
    ends: Ends,
    marks: [bool; MAX_PATTERN_CHARS],
    ended: [bool; MAX_PATTERN_CHARS],
    kept: [Ends; MAX_PATTERN_CHARS],
}

impl Ends {
    fn or(self, other: Ends) -> Ends
        ensures { result ≡ spec.or_ends self other }
    {
        Ends {
            before: self.before || other.before,
            behind: self.behind || other.behind,
        }
    }
}

/// The mark at a number, if there is one.
fn mark_at(marks: &[bool], at: usize) -> bool
    ensures { result ≡ get_or marks.now at false }
{
    if at < marks.len() { marks[at] } else { false }
}

/// Puts a mark.
fn put_mark(marks: &mut [bool], at: usize, mark: bool)
    ensures { marks.new ≡ set marks.old at mark }
{
    if at < marks.len() {
        marks[at] = mark;
    }
}

/// The ends that are kept at a depth.
fn kept_at(kept: &[Ends], at: usize) -> Ends
    ensures { result ≡ get_or kept.now at spec.no_ends }
{
    if at < kept.len() {
        kept[at]
    } else {
        Ends {
            before: false,
            behind: false,
        }
    }
}

/// Keeps ends at a depth.
fn keep(kept: &mut [Ends], at: usize, ends: Ends)
    ensures { kept.new ≡ set kept.old at ends }
{
    if at < kept.len() {
        kept[at] = ends;
    }
}

impl Walk {
    /// No character is read.
    pub fn new() -> Walk
        ensures marks { result.marks ≡ replicate MAX_PATTERN_CHARS false }
        ensures ended { result.ended ≡ replicate MAX_PATTERN_CHARS false }
        ensures kept { length result.kept ≡ MAX_PATTERN_CHARS }
    {
        let ends = Ends {
            before: false,
            behind: false,
        };
        Walk {
            ends,
            marks: [false; MAX_PATTERN_CHARS],
            ended: [false; MAX_PATTERN_CHARS],
            kept: [ends; MAX_PATTERN_CHARS],
        }
    }

    /// The marks of the first places.
    pub fn marks(&self, places: usize) -> &[bool]
        requires { places ≤ MAX_PATTERN_CHARS }
        ensures { result.now ≡ take places self.now.marks }
    {
        &self.marks[..places]
    }

    /// Takes a step.
    fn step(&mut self, step: &Step<'_>, c: char)
        ensures { self.new ≡ spec.stepped c (spec.op step.now) self.old }
    {
        let ends = self.ends;
        match step {
            Step::Take(class, place) => {
                let behind = class.takes(ends.before, c);
                self.ends = Ends {
                    before: mark_at(&self.marks, *place),
                    behind,
                };
                put_mark(&mut self.marks, *place, behind);
            }
            Step::Keep(depth) => keep(&mut self.kept, *depth, ends),
            Step::Turn(depth) => {
                self.ends = kept_at(&self.kept, *depth);
                keep(&mut self.kept, *depth, ends);
            }
            Step::Join(depth) => self.ends = kept_at(&self.kept, *depth).or(ends),
            Step::Begin(depth, own) => {
                self.ends = Ends {
                    before: ends.before || mark_at(&self.ended, *own),
                    behind: false,
                };
                keep(&mut self.kept, *depth, ends);
            }
            Step::Star(depth, own) => {
                put_mark(&mut self.ended, *own, ends.behind);
                self.ends = kept_at(&self.kept, *depth).or(ends);
            }
            Step::Plus(depth, own, skips) => {
                put_mark(&mut self.ended, *own, ends.behind);
                let front = kept_at(&self.kept, *depth);
                self.ends = Ends {
                    before: ends.before,
                    behind: ends.behind || (front.behind && *skips),
                };
            }
        }
    }

    /// Takes all steps for a character, where the pattern may begin in front of it or not, and says whether it may end
    /// behind it.
    pub fn read(&mut self, steps: &[Step<'_>], enter: bool, c: char) -> bool
        ensures walk { self.new ≡ spec.read c (map spec.op steps.now) enter self.old }
        ensures ends { result ≡ self.new.ends.behind }
    {
        self.ends = Ends {
            before: enter,
            behind: false,
        };
        for step in steps {
            self.step(step, c);
        }
        self.ends.behind
    }
}
