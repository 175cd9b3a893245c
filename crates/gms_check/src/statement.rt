//! The check of statements.
ghost use Rattle.std.specs.Prelude.{◌≡◌, ◌++◌, ◌∷◌, [], flat_map, is_none, None, true, take, IfOk, OnOk};
ghost use Rattle.gms_ast.specs.TreeView.{control_tree, tree_of};
ghost use Rattle.gms_ast.specs.declared.program.Right.TheVariants.{Value};
ghost use Rattle.gms_check.specs.InnerChanges.{facts_after};
ghost use Rattle.gms_check.specs.InnerChecking.{known_of, noted, seen, with_controlled, with_facts, with_sets};
ghost use Rattle.gms_check.specs.CompileErrors.{statement_error};
ghost use Rattle.gms_check.specs.Contexts.{as_side};
ghost use Rattle.gms_check.specs.InnerStatements.{act_uses, is_action};
ghost use Rattle.gms_check.specs.StatementUses.{index_list, left_uses, right_context, statement_uses, with_left};
ghost use Rattle.gms_check.specs.Uses.{assigning, control_uses, defining, index_sets, sets_of_control, uses};

use crate::checker::Checker;
use crate::contexts::Context;
use crate::error::CompileError;
use gms_ast::{Act, Control, Expr, Index, Named, Right, Stmt, Target};
use gms_labels::Place;
use gq_field::ExactField;
use std::alloc::AllocError;

impl<'s, F: ExactField> Checker<'s, F> {
    /// Checks a statement. The result is its first compile error, by place and then by error
    /// number. The names that it declares become known, with their data if the result is `None`.
    /// The caller must prove that `first`, the first error noted, is `None`; afterwards `first` is
    /// `None` again, and no set is controlled.
    pub fn statement(&mut self, statement: &Stmt<F>) -> Result<Option<CompileError>, AllocError>
        requires { (seen self.old).first ≡ None }
        ensures error { IfOk result (λ error. error ≡ statement_error (known_of F.value (seen self.old)) statement.now) }
        ensures facts { IfOk result (λ error. seen self.new
            ≡ record (seen self.old) { facts = facts_after F.value (seen self.old).facts statement.now.act (is_none error); controlled = []; first = None }) }
    {
        self.controlled.truncate(0);
        self.look_at(statement)?;
        Ok(self.take_first())
    }

    /// Checks what a statement declares or does, and remembers what it declares or defines.
    fn look_at(&mut self, statement: &Stmt<F>) -> Result<(), AllocError>
        requires first { (seen self.old).first ≡ None }
        requires controlled { (seen self.old).controlled ≡ [] }
        ensures first { OnOk result ((seen self.new).first ≡ statement_error (known_of F.value (seen self.old)) statement.now) }
        ensures facts { OnOk result (seen self.new
            ≡ record (seen self.old) {
              first = (seen self.new).first;
              facts = facts_after F.value
                  (seen self.old).facts statement.now.act (is_none (seen self.new).first);
            }) }
    {
        match &statement.act {
            Act::Declare { kind, items } => {
                self.declaration(statement.at, *kind, items.as_slice())
            }
            Act::Model { models } => self.models(models.as_slice()),
            act => {
                self.act(statement.at, act)?;
                self.remember(act)
            }
        }
    }

    /// Checks what a statement does, except for declarations of names and of models.
    #[cycle(statement)]
    fn act(&mut self, at: Place, act: &Act<F>) -> Result<(), AllocError>
        ensures { OnOk result (seen self.new ≡ noted F.value (seen self.old) (act_uses act.now (seen self.old).facts.state at (seen self.old).controlled)) }
    {
        match act {
            Act::Declare { .. } | Act::Model { .. } => Ok(()),
            Act::Alias { first, second } => {
                self.alias(*first, *second);
                Ok(())
            }
            Act::Assign {
                target,
                condition,
                right_at,
                right,
            } => self.assignment(at, target, condition, *right_at, value_of(right)),
            Act::Define {
                equation,
                indices,
                condition,
                left_at,
                left,
                right_at,
                right,
                ..
            } => {
                let outer = self.controlled.len();
                self.left_of_definition(at, *equation, indices.as_slice(), condition)?;
                self.sides(outer, *left_at, left, *right_at, right)
            }
            Act::Solve {
                model,
                method,
                objective,
                ..
            } => {
                self.solve(*model, method, *objective);
                Ok(())
            }
            Act::Display { items } => {
                self.shows(items.as_slice());
                Ok(())
            }
            Act::Loop { control, body } => self.repetition(at, body, control),
            Act::Options { settings } => {
                self.options(settings.as_slice());
                Ok(())
            }
            Act::Abort { condition, items } => {
                self.condition(condition, at)?;
                self.shows(items.as_slice());
                Ok(())
            }
        }
    }

    /// Checks a loop: its sets, its condition and its statements.
    #[cycle(statement)]
    fn repetition(
        &mut self,
        at: Place,
        body: &[Stmt<F>],
        control: &Control<F>,
    ) -> Result<(), AllocError>
        ensures { OnOk result (seen self.new
            ≡ noted F.value (seen self.old)
            (control_uses at (seen self.old).controlled (control_tree control.now) ++
            flat_map (λ statement. statement_uses statement (seen self.old).facts.state
            ((seen self.old).controlled ++ sets_of_control (control_tree control.now))) body.now)) }
    {
        let outer = self.controlled.len();
        self.control(control, at)?;
        for statement in body {
            self.act(statement.at, &statement.act)?;
        }
        self.controlled.truncate(outer);
        Ok(())
    }

    /// Checks an assignment.
    fn assignment(
        &mut self,
        at: Place,
        target: &Target<F>,
        condition: &Option<Expr<F>>,
        right_at: Place,
        right: &Expr<F>,
    ) -> Result<(), AllocError>
        ensures { OnOk result (seen self.new
            ≡ noted F.value (seen self.old)
            ((target.now.at, assigning target.now.name target.now.suffix (index_list target.now.indices)) ∷
            (left_uses at (with_left (seen self.old).controlled target.now.indices) target.now.indices condition.now ++
            uses (right_context (seen self.old).facts.state target.now.name) right_at
            (with_left (seen self.old).controlled target.now.indices) (tree_of right.now)))) }
    {
        let outer = self.controlled.len();
        self.left_of_assignment(at, target, condition)?;
        let context = self.right_context(target.name);
        let _variable = self.expression(right, context, right_at)?;
        self.controlled.truncate(outer);
        Ok(())
    }

    /// Checks the left side of an assignment, and its condition. The sets of the left side stay
    /// controlled.
    fn left_of_assignment(
        &mut self,
        at: Place,
        target: &Target<F>,
        condition: &Option<Expr<F>>,
    ) -> Result<(), AllocError>
        ensures { OnOk result (seen self.new
            ≡ with_controlled (noted F.value (seen self.old)
            ((target.now.at, assigning target.now.name target.now.suffix (index_list target.now.indices)) ∷ left_uses at
            (with_left (seen self.old).controlled target.now.indices) target.now.indices condition.now))
            (index_sets (index_list target.now.indices))) }
    {
        self.target(target)?;
        self.control_indices(target.indices.as_slice())?;
        self.left_amounts(target.indices.as_slice())?;
        self.condition(condition, at)
    }

    /// The context of the right side of an assignment to a name.
    fn right_context(&self, name: u32) -> Context
        ensures { result ≡ right_context (seen self.now).facts.state name }
    {
        if self.known.is_set(name) {
            Context::MEMBERS
        } else {
            Context::NUMBER
        }
    }

    /// Checks the sides of a definition, after which only the first `outer` sets are controlled.
    fn sides(
        &mut self,
        outer: usize,
        left_at: Place,
        left: &Expr<F>,
        right_at: Place,
        right: &Expr<F>,
    ) -> Result<(), AllocError>
        ensures { OnOk result (seen self.new
            ≡ noted F.value (with_sets (seen self.old) (take outer (seen self.old).controlled))
            (uses as_side left_at (seen self.old).controlled (tree_of left.now) ++
            uses as_side right_at (seen self.old).controlled (tree_of right.now))) }
    {
        let _left = self.expression(left, Context::SIDE, left_at)?;
        let _right = self.expression(right, Context::SIDE, right_at)?;
        self.controlled.truncate(outer);
        Ok(())
    }

    /// Checks the left side of a definition, and its condition. The sets of the left side stay
    /// controlled.
    fn left_of_definition(
        &mut self,
        at: Place,
        equation: Named,
        indices: &[Index<F>],
        condition: &Option<Expr<F>>,
    ) -> Result<(), AllocError>
        ensures { OnOk result (seen self.new
            ≡ with_controlled (noted F.value (seen self.old)
            ((equation.at, defining equation.name (index_list indices.now)) ∷ left_uses at
            (with_left (seen self.old).controlled indices.now) indices.now condition.now))
            (index_sets (index_list indices.now))) }
    {
        self.defined_equation(equation, indices)?;
        self.control_indices(indices)?;
        self.left_amounts(indices)?;
        self.condition(condition, at)
    }

    /// Remembers what a statement that is no declaration of names or models declares or defines,
    /// with an error or without.
    fn remember(&mut self, act: &Act<F>) -> Result<(), AllocError>
        requires { is_action act.now ≡ true }
        ensures { OnOk result (seen self.new ≡ with_facts (seen self.old) (facts_after F.value (seen self.old).facts act.now true)) }
    {
        match act {
            Act::Alias { first, second } => {
                self.known
                    .declare_alias(self.alloc, first.name, second.name)
            }
            Act::Define { equation, .. } => {
                self.known.define(equation.name);
                Ok(())
            }
            _ => Ok(()),
        }
    }
}

/// The expression of a right side.
fn value_of<F: ExactField>(right: &Right<F>) -> &Expr<F>
    ensures { right.now ≡ Value result.now }
{
    let Right::Value(value) = right;
    value
}
