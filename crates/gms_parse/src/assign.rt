//! Assignments, and definitions of equations.
ghost use Rattle.std.specs.Prelude.{◌≡◌, ◌<◌, ◌||◌, length};
ghost use Rattle.gms_grammar.specs.Grammar.{the, ◌·◌};
ghost use Rattle.gms_grammar.specs.GamsGrammar.{Expression, Sides as SidesPart, Assignment, NamedStatement, token};
ghost use Rattle.gms_grammar.specs.declared.terminal.Terminal.TheVariants.{Equals, Sense};
ghost use Rattle.gms_ast.specs.Trees.{Indices};
ghost use Rattle.gms_ast.specs.TreeView.{index_tree};
ghost use Rattle.gms_ast.specs.StatementView.{shown_target};
ghost use Rattle.gms_parse.specs.Statements.{assignment_act, named_act};
ghost use Rattle.gms_parse.specs.InnerReadings.{IsReady, AnswersPart};
ghost use Rattle.gms_parse.specs.InnerMeanings.{IsAssigned, IsDefined, IsRightSide, IsRelated, IsRelation, IsAct, is_plain_target, has_lag};

use crate::reader::{Read, Reader, Tables};
use crate::spelling::side_of;
use gms_ast::{Act, Expr, Index, Named, Right, Side, Suffix, Target};
use gms_grammar::Terminal;
use gms_labels::Place;
use gq_field::ExactField;

/// The two sides of a definition, and how they relate.
#[derive(Drop)]
struct Relation<F> {
    /// The place of the first character of the left side.
    left_at: Place,
    left: Expr<F>,
    side: Side,
    /// The place of the first character of the right side.
    right_at: Place,
    right: Expr<F>,
}

/// Whether an index has a lag.
fn has_lag<F: ExactField>(index: &Index<F>) -> bool
    ensures { (rest : Indices F) → has_lag (index_tree index.now rest) ≡ (result || has_lag rest) }
{
    matches!(index, Index::Set { lag: Some(_), .. })
}

/// Whether a target may be what a definition defines: it has no suffix, and none of its indices has
/// a lag.
fn is_plain<F: ExactField>(target: &Target<F>) -> bool
    ensures { result ≡ is_plain_target (shown_target F.value target.now) }
{
    if target.suffix != Suffix::None {
        return false;
    }
    for index in target.indices.as_slice() {
        if has_lag(index) {
            return false;
        }
    }
    true
}

impl<'s> Reader<'s> {
    /// Reads the right side after its `=`, and its place.
    fn right_value<F: ExactField>(&self, tables: &mut Tables, at: usize) -> Read<(Place, Expr<F>)>
        requires { IsReady self.now }
        ensures { AnswersPart F.limit (IsRightSide F.value self.now.source.now) (token Equals · the Expression) self.now at tables.old tables.new result }
    {
        let right = self.following(Terminal::Equals, at)?;
        let (value, next) = self.expression(tables, right)?;
        Ok(((self.place(right), value), next))
    }

    /// Reads the right side after its `=`, as an assignment to a target under a condition.
    fn right_side<F: ExactField>(
        &self,
        tables: &mut Tables,
        target: Target<F>,
        condition: Option<Expr<F>>,
        at: usize,
    ) -> Read<Act<F>>
        requires { IsReady self.now }
        ensures { AnswersPart F.limit (IsAssigned F.value self.now.source.now target condition)
            (token Equals · the Expression) self.now at tables.old tables.new result }
    {
        let right = self.right_value(tables, at);
        right.map(|((right_at, value), next)| {
            let act = Act::Assign {
                target,
                condition,
                right_at,
                right: Right::Value(value),
            };
            (act, next)
        })
    }

    /// Reads the symbol that relates two sides, and the right side after it with its place.
    fn related<F: ExactField>(&self, tables: &mut Tables, at: usize) -> Read<(Side, Place, Expr<F>)>
        requires { IsReady self.now }
        ensures { AnswersPart F.limit (IsRelated F.value self.now.source.now) (token Sense · the Expression) self.now at tables.old tables.new result }
    {
        let (sense, following) = self.take(Terminal::Sense, at)?;
        let (right, next) = self.expression(tables, following)?;
        Ok(((side_of(sense.kind), self.place(following), right), next))
    }

    /// Reads two sides, and how they relate.
    fn relation<F: ExactField>(&self, tables: &mut Tables, at: usize) -> Read<Relation<F>>
        requires ready { IsReady self.now }
        requires within { at < length self.now.tokens.now }
        ensures { AnswersPart F.limit (IsRelation F.value self.now.source.now) (the SidesPart) self.now at tables.old tables.new result }
    {
        let left_at = self.place(at);
        let (left, next) = self.expression(tables, at)?;
        let related = self.related(tables, next);
        related.map(|((side, right_at, right), next)| {
            let relation = Relation {
                left_at,
                left,
                side,
                right_at,
                right,
            };
            (relation, next)
        })
    }

    /// Reads two sides, as the definition of an equation under a condition.
    fn sides<F: ExactField>(
        &self,
        tables: &mut Tables,
        equation: Target<F>,
        condition: Option<Expr<F>>,
        at: usize,
    ) -> Read<Act<F>>
        requires ready { IsReady self.now }
        requires within { at < length self.now.tokens.now }
        ensures { AnswersPart F.limit (IsDefined F.value self.now.source.now equation condition) (the SidesPart) self.now at tables.old tables.new result }
    {
        let name = Named {
            at: equation.at,
            name: equation.name,
        };
        let indices = equation.indices;
        let relation = self.relation(tables, at);
        relation.map(|(relation, next)| {
            let act = Act::Define {
                equation: name,
                indices,
                condition,
                left_at: relation.left_at,
                left: relation.left,
                side: relation.side,
                right_at: relation.right_at,
                right: relation.right,
            };
            (act, next)
        })
    }

    /// Reads an assignment.
    pub(crate) fn assignment<F: ExactField>(&self, tables: &mut Tables, at: usize) -> Read<Act<F>>
        requires ready { IsReady self.now }
        requires within { at < length self.now.tokens.now }
        ensures { AnswersPart F.limit (IsAct F.value self.now.source.now assignment_act) (the Assignment) self.now at tables.old tables.new result }
    {
        let (target, next) = self.target(tables, at)?;
        let (condition, next) = self.condition(tables, next)?;
        self.right_side(tables, target, condition, next)
    }

    /// Reads an assignment or a definition. They begin alike, up to `=` or `..`.
    pub(crate) fn assignment_or_definition<F: ExactField>(
        &self,
        tables: &mut Tables,
        at: usize,
    ) -> Read<Act<F>>
        requires ready { IsReady self.now }
        requires within { at < length self.now.tokens.now }
        ensures { AnswersPart F.limit (IsAct F.value self.now.source.now named_act) (the NamedStatement) self.now at tables.old tables.new result }
    {
        let (target, next) = self.target(tables, at)?;
        let (condition, next) = self.condition(tables, next)?;
        match self.take_if(Terminal::DotDot, next) {
            Some((_, following)) if is_plain(&target) => self.sides(
                tables, target, condition, following,
            ),
            _ => self.right_side(tables, target, condition, next),
        }
    }
}
