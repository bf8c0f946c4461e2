//! The points of each sort of statement.
ghost use Rattle.std.specs.Prelude.{◌≡◌, ◌+◌, ◌<◌, ◌≤◌, IfOk, OnOk, [], ◌∷◌, length};
ghost use Rattle.bw_lang.specs.Service.TermView.{term};
ghost use Rattle.bw_lang.specs.declared.stmt.Kind.TheVariants.{Str};
ghost use Rattle.bw_flow.specs.Scopes.{target_kind, with_local};
ghost use Rattle.bw_flow.specs.Steps.{sets, tests, goes_over, shows, exits};
ghost use Rattle.bw_flow.specs.Layout.{count, receives, received};
ghost use Rattle.bw_flow.specs.Drawing.{with_statement, first_of};
ghost use Rattle.bw_flow.specs.declared.lowering.TheConstants.{MAX_POINTS};

use crate::counting::{begins, block_points};
use crate::draft::Draft;
use crate::point::{PointId, PointIds, Received, Receiveds, What};
use bw_lang::{Block, Expr, Kind, Memory, Name, Receive, Receives};
use bw_types::Typed;

/// An `if` whose test has its point: its number, and the place where its branches will meet.
#[derive(Drop)]
pub struct Fork {
    pub number: u32,
    pub join: PointId,
}

/// A foreach whose head has its point: the place of that, and how many foreachs there are around its body.
#[derive(Drop)]
pub struct Foreach {
    pub head: PointId,
    pub inside: u32,
}

impl Draft {
    /// The point of a declaration, whose local is in scope behind it.
    pub fn declaration(
        &mut self,
        kind: Kind,
        name: &Name,
        value: &Expr,
        inside: u32,
        next: PointId,
    ) -> Result<(), Memory>
        requires { length self.old.steps < MAX_POINTS }
        ensures { OnOk result (self.new ≡ record (with_statement self.old inside (sets name.now (term value.now)) (next ∷ []))
            { scope = with_local self.old.scope name.now kind }) }
    {
        self.assign(name, value, inside, next)?;
        self.declare(name, kind)
    }

    /// The point of a declaration or an assignment.
    pub fn assign(
        &mut self,
        name: &Name,
        value: &Expr,
        inside: u32,
        next: PointId,
    ) -> Result<(), Memory>
        requires { length self.old.steps < MAX_POINTS }
        ensures { OnOk result (self.new ≡ with_statement self.old inside (sets name.now (term value.now)) (next ∷ [])) }
    {
        let what = What::Assign {
            name: name.copy()?,
            value: value.copy()?,
        };
        self.push(inside, what, PointIds::one(self.alloc(), next)?)
    }

    /// The point of the test of an `if` without else.
    pub fn if_head(&mut self, test: &Expr, yes: &Block, inside: u32) -> Result<Fork, Memory>
        requires { length self.old.steps + 2 + count yes.now ≤ MAX_POINTS }
        ensures number { IfOk result (λ f. f.number ≡ self.old.number) }
        ensures join { IfOk result (λ f. f.join ≡ length self.old.steps + 1 + count yes.now) }
        ensures point { IfOk result (λ f. self.new ≡ with_statement self.old inside (tests (term test.now))
            (first_of (count yes.now) (length self.old.steps + 1) f.join ∷ f.join ∷ [])) }
    {
        let number = self.number();
        let one = self.len() + 1;
        let points = block_points(yes);
        let join = PointId::of(one + points);
        let next = PointIds::two(self.alloc(), begins(points, one, join), join)?;
        self.push(inside, What::Test { test: test.copy()? }, next)?;
        Ok(Fork { number, join })
    }

    /// The point of the test of an `if` with else.
    pub fn if_else_head(
        &mut self,
        test: &Expr,
        yes: &Block,
        no: &Block,
        inside: u32,
    ) -> Result<Fork, Memory>
        requires { length self.old.steps + 2 + count yes.now + count no.now ≤ MAX_POINTS }
        ensures number { IfOk result (λ f. f.number ≡ self.old.number) }
        ensures join { IfOk result (λ f. f.join ≡ length self.old.steps + 1 + count yes.now + count no.now) }
        ensures point { IfOk result (λ f. self.new ≡ with_statement self.old inside (tests (term test.now))
            (first_of (count yes.now) (length self.old.steps + 1) f.join ∷ first_of (count no.now) (length self.old.steps + 1 + count yes.now) f.join ∷ [])) }
    {
        let number = self.number();
        let one = self.len() + 1;
        let yes = block_points(yes);
        let other = one + yes;
        let no = block_points(no);
        let join = PointId::of(other + no);
        let next = PointIds::two(
            self.alloc(),
            begins(yes, one, join),
            begins(no, other, join),
        )?;
        self.push(inside, What::Test { test: test.copy()? }, next)?;
        Ok(Fork { number, join })
    }

    /// The point where the turns of a `while` begin. Answers its place.
    pub fn while_head(
        &mut self,
        test: &Expr,
        body: &Block,
        inside: u32,
        next: PointId,
    ) -> Result<PointId, Memory>
        requires { length self.old.steps + 1 + count body.now ≤ MAX_POINTS }
        ensures head { IfOk result (λ h. h ≡ length self.old.steps) }
        ensures point { OnOk result (self.new ≡ with_statement self.old inside (tests (term test.now))
            (first_of (count body.now) (length self.old.steps + 1) (length self.old.steps) ∷ next ∷ [])) }
    {
        let head = PointId::of(self.len());
        let next = self.into_or_past(body, next)?;
        self.push(inside, What::Test { test: test.copy()? }, next)?;
        Ok(head)
    }

    /// The point where the turns of a foreach begin, with the local of its name in scope behind it.
    pub fn foreach_head(
        &mut self,
        name: &Name,
        value: &Expr,
        body: &Block,
        inside: u32,
        next: PointId,
    ) -> Result<Foreach, Memory>
        requires room { length self.old.steps + 1 + count body.now ≤ MAX_POINTS }
        requires inside { inside ≤ length self.old.steps }
        ensures head { IfOk result (λ r. r.head ≡ length self.old.steps) }
        ensures inside { IfOk result (λ r. r.inside ≡ inside + 1) }
        ensures point { OnOk result (self.new ≡ record (with_statement self.old inside (goes_over name.now (term value.now))
            (first_of (count body.now) (length self.old.steps + 1) (length self.old.steps) ∷ next ∷ [])) { scope = with_local self.old.scope name.now Str }) }
    {
        let head = PointId::of(self.len());
        let next = self.into_or_past(body, next)?;
        let each = What::Each {
            name: name.copy()?,
            value: value.copy()?,
        };
        self.push(inside, each, next)?;
        self.declare(name, Kind::Str)?;
        Ok(Foreach {
            head,
            inside: inside + 1,
        })
    }

    /// Where the next point leads if it is the head of a loop: into its body, whose end leads back to it, or past it.
    fn into_or_past(&self, body: &Block, next: PointId) -> Result<PointIds, Memory>
        requires { length self.now.steps + 1 + count body.now ≤ MAX_POINTS }
        ensures { IfOk result (λ p. p ≡ first_of (count body.now) (length self.now.steps + 1) (length self.now.steps) ∷ next ∷ []) }
    {
        let head = self.len();
        let first = begins(block_points(body), head + 1, PointId::of(head));
        PointIds::two(self.alloc(), first, next)
    }

    /// The point of a show.
    pub fn show(
        &mut self,
        typed: &Typed,
        page: &Expr,
        list: &Receives,
        inside: u32,
        next: PointId,
    ) -> Result<(), Memory>
        requires { length self.old.steps < MAX_POINTS }
        ensures { OnOk result (self.new ≡ with_statement self.old inside (shows (term page.now) (receives typed.now.service self.old.scope list.now))
            (next ∷ [])) }
    {
        let what = What::Show {
            page: page.copy()?,
            receives: self.receives(typed, list.as_slice())?,
        };
        self.push(inside, what, PointIds::one(self.alloc(), next)?)
    }

    /// The point of an exit.
    pub fn exit(&mut self, page: &Expr, inside: u32) -> Result<(), Memory>
        requires { length self.old.steps < MAX_POINTS }
        ensures { OnOk result (self.new ≡ with_statement self.old inside (exits (term page.now)) []) }
    {
        let next = PointIds::none(self.alloc());
        self.push(inside, What::Exit { page: page.copy()? }, next)
    }

    /// What a show receives.
    fn receives(&self, typed: &Typed, list: &[Receive]) -> Result<Receiveds, Memory>
        ensures { IfOk result (λ r. r ≡ receives typed.now.service self.now.scope list.now) }
    {
        let mut fields = Vec::new(self.alloc());
        for receive in list {
            fields.push(self.received(typed, receive)?)?;
        }
        Ok(Receiveds::from_vec(fields))
    }

    /// A field that is received, with the kind of its target and its number.
    fn received(&self, typed: &Typed, receive: &Receive) -> Result<Received, Memory>
        ensures { IfOk result (λ r. r ≡ received typed.now.service self.now.scope receive.now) }
    {
        Ok(Received {
            target: receive.target.copy()?,
            kind: self.target_kind(typed, &receive.target),
            field: receive.field.copy()?,
            id: typed.fields().number(receive.field.as_str()),
        })
    }

    /// The kind of a variable: of the local in scope, or else of the shared variable.
    fn target_kind(&self, typed: &Typed, name: &Name) -> Kind
        ensures { result ≡ target_kind typed.now.service self.now.scope name.now }
    {
        match self.kind(name) {
            Some(kind) => kind,
            None => typed.shared(name.as_str()).unwrap_or(Kind::Str),
        }
    }
}
