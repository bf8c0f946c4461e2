//! The light of a text.
ghost use Rattle.std.specs.Prelude.{◌≡◌, ◌≤◌, map, length, chars, cond, false, ◌∷◌, [], true, ◌&&◌, ◌||◌};
ghost use Rattle.bw_format.specs.Marks as spec;
ghost use Rattle.bw_format.specs.Steps as layout;
ghost use Rattle.bw_format.specs.Pattern.{places, repeats};
ghost use Rattle.bw_format.specs.declared.light.Light.TheVariants as light;
ghost use Rattle.bw_format.specs.declared.limits.TheConstants.{MAX_PATTERN_CHARS};

use crate::laying::lay_out;
use crate::limits::MAX_PATTERN_CHARS;
use crate::pattern::{Node, Pattern};
use crate::steps::{At, Step};
use crate::walking::Walk;
use arrayvec::ArrayVec;

/// How a text stands to a pattern.
#[derive(Clone, Copy, PartialEq, Eq)]
pub enum Light {
    /// It is in the pattern.
    Green,
    /// It isn't, and some longer text that begins with it is.
    Yellow,
    /// No text that begins with it is.
    Red,
}

fn is_marked(marks: &[bool]) -> bool
    ensures { result ≡ spec.marked marks.now }
{
    marks.iter().any(|mark| *mark)
}

/// Puts the mark of a class.
#[tactic(auto, using(crate::proofs::Lists::one_mark))]
fn put(marks: &mut [bool], mark: bool)
    requires { length marks.old ≡ 1 }
    ensures { marks.new ≡ mark ∷ [] }
{
    marks[0] = mark;
}

/// Whether a repetition may begin, or begin again.
fn may_begin(enter: bool, own: &[bool]) -> bool
    ensures { result ≡ (enter || spec.marked own.now) }
{
    enter || is_marked(own)
}

/// The light of a text, where the pattern may end behind it or not, and may begin there or stands at its marks.
fn light_at(ends: bool, enter: bool, marks: &[bool]) -> Light
    ensures { result ≡ cond ends light.Green (cond (enter || spec.marked marks.now) light.Yellow light.Red) }
{
    if ends {
        Light::Green
    } else if enter || is_marked(marks) {
        Light::Yellow
    } else {
        Light::Red
    }
}

/// What a pattern comes to by one character.
#[derive(Clone, Copy)]
struct Moved {
    /// It could have ended before it.
    before: bool,
    /// It may end behind it, where it doesn't begin there.
    behind: bool,
    /// It takes the empty text.
    skips: bool,
}

impl Moved {
    fn new(before: bool, behind: bool, skips: bool) -> Moved
        ensures { result ≡ record { before = before; behind = behind; skips = skips } }
    {
        Moved {
            before,
            behind,
            skips,
        }
    }

    /// Of a sequence.
    fn then(self, other: Moved) -> Moved
        ensures { result ≡ record { before = other.before; behind = other.behind || (self.behind && other.skips); skips = self.skips && other.skips } }
    {
        Moved {
            before: other.before,
            behind: other.behind || (self.behind && other.skips),
            skips: self.skips && other.skips,
        }
    }

    /// Of alternatives.
    fn or(self, other: Moved) -> Moved
        ensures { result ≡ record { before = self.before || other.before; behind = self.behind || other.behind; skips = self.skips || other.skips } }
    {
        Moved {
            before: self.before || other.before,
            behind: self.behind || other.behind,
            skips: self.skips || other.skips,
        }
    }

    /// Of what may be left out, in front of which a text may end where it begins.
    fn or_skipped(self, enter: bool) -> Moved
        ensures { result ≡ record { before = enter || self.before; behind = self.behind; skips = true } }
    {
        Moved {
            before: enter || self.before,
            behind: self.behind,
            skips: true,
        }
    }
}

impl Pattern {
    /// Whether it may end here.
    fn ends(&self, enter: bool, marks: &[bool]) -> bool
        requires { length marks.now ≡ places self.now }
        ensures { result ≡ spec.ends self.now enter marks.now }
    {
        match self.node() {
            Node::Nothing => enter,
            Node::One(_) => is_marked(marks),
            Node::Sequence(left, right) => {
                let (front, back) = marks.split_at(left.places());
                right.ends(left.ends(enter, front), back)
            }
            Node::Either(left, right) => {
                let (front, back) = marks.split_at(left.places());
                left.ends(enter, front) || right.ends(enter, back)
            }
            Node::Star(inner) => enter || inner.ends(false, marks),
            Node::Optional(inner) => enter || inner.ends(enter, marks),
            Node::Plus(inner) | Node::Group(inner) => inner.ends(enter, marks),
        }
    }

    /// Moves the marks on by one character. Beside them stands, for each repetition, whether its inside may end at its
    /// marks: so each node is passed once for a character.
    fn shift(&self, enter: bool, c: char, marks: &mut [bool], ended: &mut [bool]) -> Moved
        requires marks { length marks.old ≡ places self.now }
        requires ended { ended.old ≡ spec.ended self.now marks.old }
        ensures before { result.before ≡ spec.ends self.now enter marks.old }
        ensures behind { result.behind ≡ spec.ends self.now false marks.new }
        ensures skips { result.skips ≡ spec.skips self.now }
        ensures marks { marks.new ≡ spec.shifted self.now enter c marks.old }
        ensures ended { ended.new ≡ spec.ended self.now marks.new }
    {
        match self.node() {
            Node::Nothing => Moved::new(enter, false, true),
            Node::One(class) => {
                let before = is_marked(marks);
                let mark = class.takes(enter, c);
                put(marks, mark);
                Moved::new(before, mark, false)
            }
            Node::Sequence(left, right) => {
                let (front, back) = marks.split_at_mut(left.places());
                let (first, second) = ended.split_at_mut(left.repeats());
                let one = left.shift(enter, c, front, first);
                let other = right.shift(one.before, c, back, second);
                one.then(other)
            }
            Node::Either(left, right) => {
                let (front, back) = marks.split_at_mut(left.places());
                let (first, second) = ended.split_at_mut(left.repeats());
                let one = left.shift(enter, c, front, first);
                let other = right.shift(enter, c, back, second);
                one.or(other)
            }
            Node::Star(inner) => {
                let (own, others) = ended.split_at_mut(1);
                let again = may_begin(enter, own);
                let inside = inner.shift(again, c, marks, others);
                put(own, inside.behind);
                Moved::new(again, inside.behind, true)
            }
            Node::Plus(inner) => {
                let (own, others) = ended.split_at_mut(1);
                let again = may_begin(enter, own);
                let inside = inner.shift(again, c, marks, others);
                put(own, inside.behind);
                inside
            }
            Node::Optional(inner) => inner.shift(enter, c, marks, ended).or_skipped(enter),
            Node::Group(inner) => inner.shift(enter, c, marks, ended),
        }
    }

    /// The light where the text ends here.
    fn light_here(&self, enter: bool, marks: &[bool]) -> Light
        requires { length marks.now ≡ places self.now }
        ensures { result ≡ spec.light_from self.now enter marks.now [] }
    {
        light_at(self.ends(enter, marks), enter, marks)
    }

    /// The light of a text, where the pattern may begin in front of it or stands at its marks.
    fn light_from(&self, marks: &mut [bool], ended: &mut [bool], text: &str) -> Light
        requires marks { length marks.old ≡ places self.now }
        requires ended { ended.old ≡ spec.ended self.now marks.old }
        ensures { result ≡ spec.light_from self.now true marks.old (chars text.now) }
    {
        let mut enter = true;
        for c in text.chars() {
            self.shift(enter, c, marks, ended);
            enter = false;
        }
        self.light_here(enter, marks)
    }

    /// The light of a text, by the tree.
    fn light_by_tree(&self, text: &str) -> Light
        requires places { places self.now ≤ MAX_PATTERN_CHARS }
        requires repeats { repeats self.now ≤ MAX_PATTERN_CHARS }
        ensures { result ≡ spec.light self.now (chars text.now) }
    {
        let mut marks = [false; MAX_PATTERN_CHARS];
        let mut ended = [false; MAX_PATTERN_CHARS];
        self.light_from(
            &mut marks[..self.places()],
            &mut ended[..self.repeats()],
            text,
        )
    }

    /// The light of a text, by the steps, where the pattern takes the empty text or doesn't.
    fn light_by_steps(&self, steps: &[Step<'_>], skips: bool, text: &str) -> Light
        requires places { places self.now ≤ MAX_PATTERN_CHARS }
        requires repeats { repeats self.now ≤ MAX_PATTERN_CHARS }
        requires skips { skips ≡ spec.skips self.now }
        requires steps { map layout.op steps.now ≡ layout.code self.now layout.at_start }
        requires fits { layout.Fits self.now 0 MAX_PATTERN_CHARS }
        ensures { result ≡ spec.light self.now (chars text.now) }
    {
        let mut walk = Walk::new();
        let mut enter = true;
        let mut ends = skips;
        for c in text.chars() {
            ends = walk.read(steps, enter, c);
            enter = false;
        }
        light_at(ends, enter, walk.marks(self.places()))
    }

    /// The light of a text. It takes no memory. The steps take a fraction of the time that the tree takes, for texts of some
    /// characters too. By the tree go the empty text, and a pattern that has no room for its steps.
    pub fn light(&self, text: &str) -> Light
        requires places { places self.now ≤ MAX_PATTERN_CHARS }
        requires repeats { repeats self.now ≤ MAX_PATTERN_CHARS }
        ensures { result ≡ spec.light self.now (chars text.now) }
    {
        if text.is_empty() {
            return self.light_by_tree(text);
        }
        let mut steps = ArrayVec::new();
        match lay_out(self, At::start(), &mut steps) {
            Some(skips) => self.light_by_steps(&steps, skips, text),
            None => self.light_by_tree(text),
        }
    }
}
