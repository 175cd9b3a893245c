//! The check of expressions: what may occur in them, and which operations are not linear.
ghost use Rattle.std.specs.Prelude.{◌≡◌, ◌++◌, ◌∷◌, [], ◌&&◌, false, not, take, IfOk, OnOk};
ghost use Rattle.gms_ast.specs.TreeView.{control_tree, tree_of};
ghost use Rattle.gms_check.specs.InnerChecking.{faulted, known_of, noted, seen, with_controlled, with_sets};
ghost use Rattle.gms_check.specs.Kinds.{takes_arguments};
ghost use Rattle.gms_check.specs.Linearity.{has_variable, have_variable, is_sum, is_variable_by};
ghost use Rattle.gms_check.specs.InnerPartLists.{chosen_list, in_no_place, placed_list, plain_list, related_list, signed_list, step_curved, step_faults, step_wrong};
ghost use Rattle.gms_check.specs.Contexts.{as_condition, as_inner, as_number, as_part};
ghost use Rattle.gms_check.specs.StatementUses.{index_list};
ghost use Rattle.gms_check.specs.declared.error.ErrorKind.TheVariants.{Nonlinear, WrongKind};
ghost use Rattle.gms_check.specs.Uses.{amount_uses, calling, control_uses, folding, logic, part_uses, reading, sets_of_control, steps, uses};

use crate::checker::Checker;
use crate::contexts::Context;
use crate::error::ErrorKind;
use gms_ast::{Control, Expr, FoldOp, Function, Index, Named, RelOp, Suffix};
use gms_labels::Place;
use gq_field::ExactField;
use std::alloc::AllocError;

/// A multiplication, a division or a power, named by what its right operand does.
#[derive(Clone, Copy, Debug, PartialEq, Eq)]
pub enum Operation {
    /// The right operand multiplies.
    Multiplies,
    /// The right operand divides.
    Divides,
    /// The right operand is an exponent.
    Raises,
}

impl<'s, F: ExactField> Checker<'s, F> {
    /// Checks `e` in a context; updates `first`, the statement's first error by place, then by
    /// error number. An error is at the smallest part around it with a place, else at `around`.
    /// Returns whether `e` has a variable without suffix outside conditions, relations, operands of
    /// logic and amounts of lags.
    #[cycle(expression)]
    pub fn expression(
        &mut self,
        e: &Expr<F>,
        context: Context,
        around: Place,
    ) -> Result<bool, AllocError>
        ensures noted { OnOk result (seen self.new ≡ noted F.value (seen self.old) (uses context around (seen self.old).controlled (tree_of e.now))) }
        ensures variable { IfOk result (λ variable. variable ≡ has_variable (known_of F.value (seen self.old)) (tree_of e.now)) }
    {
        match e {
            Expr::Number(_) | Expr::PlusInf | Expr::Na => Ok(self.leaf(context.numbers, around)),
            Expr::Yes | Expr::No => Ok(self.leaf(context.membership, around)),
            Expr::Ref {
                at,
                name,
                suffix,
                indices,
            } => self.referred(context, *at, *name, *suffix, indices),
            Expr::Ord { at, set } => Ok(self.ordinal(context, *at, *set)),
            Expr::Card { at, set } => Ok(self.cardinal(context, *at, *set)),
            Expr::Call { at, function, args } => self.call(context, *at, *function, args),
            Expr::Neg(operand) => self.expression(operand, context.part(), around),
            Expr::Plus(parts) => self.sum(parts, context),
            Expr::Times(parts) => self.product(parts, context),
            Expr::Power(parts) => self.power(parts, context),
            Expr::Relate(parts) => self.relations(parts, context, around),
            Expr::Not(operand) => {
                let _operand = self.expression(operand, context.denied(), around)?;
                Ok(false)
            }
            Expr::And(parts) => self.all_of(parts, context, around),
            Expr::Or(parts) => self.choice(parts, context, around),
            Expr::Guard { operand, guards } => {
                let variable = self.expression(operand, context.guarded(), around)?;
                let _guards = self.expressions(guards, Context::CONDITION, around)?;
                Ok(variable)
            }
            Expr::Fold {
                at,
                op,
                control,
                body,
            } => {
                let outer = self.controlled.len();
                self.control(control, *at)?;
                self.folded(context, *at, *op, body, outer)
            }
        }
    }

    /// Checks a leaf by whether it may occur there. Answers whether it has variables: it has none.
    fn leaf(&mut self, occurs: bool, at: Place) -> bool
        ensures noted { seen self.new ≡ faulted (seen self.old) at ((not occurs, WrongKind) ∷ []) }
        ensures variable { result ≡ false }
    {
        self.require(occurs, ErrorKind::WrongKind, at);
        false
    }

    /// Checks a reference and the amounts of its lags. Answers whether it is a variable without
    /// suffix.
    #[cycle(expression)]
    fn referred(
        &mut self,
        context: Context,
        at: Place,
        name: u32,
        suffix: Suffix,
        indices: &[Index<F>],
    ) -> Result<bool, AllocError>
        ensures noted { OnOk result (seen self.new
            ≡ noted F.value (seen self.old)
            ((at, reading context (seen self.old).controlled name suffix (index_list indices.now)) ∷ amount_uses
            (seen self.old).controlled (index_list indices.now))) }
        ensures variable { IfOk result (λ variable. variable ≡ is_variable_by (known_of F.value (seen self.old)) name suffix) }
    {
        let named = Named { at, name };
        let variable = self.reference(context, named, suffix, indices)?;
        self.amounts(indices)?;
        Ok(variable)
    }

    /// Checks a fold after its control, whose sets are controlled in its body; after it only the
    /// first `outer` sets still are. Answers whether the body has variables.
    #[cycle(expression)]
    fn folded(
        &mut self,
        context: Context,
        at: Place,
        op: FoldOp,
        body: &Expr<F>,
        outer: usize,
    ) -> Result<bool, AllocError>
        ensures noted { OnOk result (seen self.new
            ≡ with_sets (noted F.value (seen self.old)
            ((at, folding context op (tree_of body.now)) ∷ uses (as_inner context) at (seen self.old).controlled
            (tree_of body.now))) (take outer (seen self.old).controlled)) }
        ensures variable { IfOk result (λ variable. variable ≡ has_variable (known_of F.value (seen self.old)) (tree_of body.now)) }
    {
        self.require(context.numbers, ErrorKind::WrongKind, at);
        let variable = self.expression(body, context.inner(), at)?;
        self.controlled.truncate(outer);
        self.fold_step(context, op, variable, at);
        Ok(variable)
    }

    /// Checks expressions in the same context. Answers whether one has variables.
    #[cycle(expression)]
    fn expressions(
        &mut self,
        parts: &[Expr<F>],
        context: Context,
        around: Place,
    ) -> Result<bool, AllocError>
        ensures noted { OnOk result (seen self.new ≡
            noted F.value (seen self.old) (part_uses context around (seen self.old).controlled (plain_list parts.now))) }
        ensures variable { IfOk result (λ variable. variable ≡ have_variable (known_of F.value (seen self.old)) (plain_list parts.now)) }
    {
        let mut variable = false;
        for part in parts {
            variable |= self.expression(part, context, around)?;
        }
        Ok(variable)
    }

    /// Checks the amounts of lags.
    #[cycle(expression)]
    fn amounts(&mut self, indices: &[Index<F>]) -> Result<(), AllocError>
        ensures { OnOk result (seen self.new ≡ noted F.value (seen self.old) (amount_uses (seen self.old).controlled (index_list indices.now))) }
    {
        for index in indices {
            if let Index::Set { lag, .. } = index
                && let Some((_op, at, amount)) = lag
            {
                let _variable = self.expression(amount, Context::NUMBER, *at)?;
            }
        }
        Ok(())
    }

    /// Checks a call of a function.
    #[cycle(expression)]
    fn call(
        &mut self,
        context: Context,
        at: Place,
        function: Function,
        args: &[Expr<F>],
    ) -> Result<bool, AllocError>
        ensures noted { OnOk result (seen self.new
            ≡ noted F.value (seen self.old)
            ((at, calling context function (plain_list args.now)) ∷ part_uses (as_inner context) at (seen self.old).controlled
            (plain_list args.now))) }
        ensures variable { IfOk result (λ variable. variable ≡ have_variable (known_of F.value (seen self.old)) (plain_list args.now)) }
    {
        self.require(context.numbers, ErrorKind::WrongKind, at);
        self.require(takes(function, args.len()), ErrorKind::Function, at);
        let variable = self.expressions(args, context.inner(), at)?;
        self.require(!(context.variables && variable), ErrorKind::Nonlinear, at);
        Ok(variable)
    }

    /// Checks the sets of a fold or loop (declared, one-dimensional, at most 10, none twice) and
    /// the condition, if any. `at` is the place of the sets. Updates `first`, the statement's first
    /// error by place, then number. The sets, even if wrong, are controlled in the condition and
    /// after it. The error is out of memory.
    #[cycle(expression)]
    pub fn control(&mut self, control: &Control<F>, at: Place) -> Result<(), AllocError>
        ensures { OnOk result (seen self.new
            ≡ with_controlled (noted F.value (seen self.old)
            (control_uses at (seen self.old).controlled (control_tree control.now)))
            (sets_of_control (control_tree control.now))) }
    {
        self.control_sets(control.sets.as_slice(), at)?;
        if let Some(condition) = &control.condition {
            let _variable = self.expression(condition, Context::CONDITION, at)?;
        }
        Ok(())
    }

    /// Checks the parts of a sum.
    #[cycle(expression)]
    fn sum(
        &mut self,
        parts: &[(Place, bool, Expr<F>)],
        context: Context,
    ) -> Result<bool, AllocError>
        ensures noted { OnOk result (seen self.new ≡
            noted F.value (seen self.old)
            (part_uses (as_part context) in_no_place (seen self.old).controlled (signed_list parts.now))) }
        ensures variable { IfOk result (λ variable. variable ≡ have_variable (known_of F.value (seen self.old)) (signed_list parts.now)) }
    {
        let mut variable = false;
        for (at, _, part) in parts {
            variable |= self.expression(part, context.part(), *at)?;
        }
        Ok(variable)
    }

    /// Checks the parts of a product and its steps.
    #[cycle(expression)]
    fn product(
        &mut self,
        parts: &[(Place, bool, Expr<F>)],
        context: Context,
    ) -> Result<bool, AllocError>
        ensures noted { OnOk result (seen self.new
            ≡ noted F.value (seen self.old)
            (part_uses (as_part context) in_no_place (seen self.old).controlled (signed_list parts.now) ++
            steps context in_no_place (signed_list parts.now))) }
        ensures variable { IfOk result (λ variable. variable ≡ have_variable (known_of F.value (seen self.old)) (signed_list parts.now)) }
    {
        let mut earlier = false;
        for (i, (at, divides, part)) in parts.iter().enumerate() {
            let right = self.expression(part, context.part(), *at)?;
            if i > 0 {
                let operation = if *divides {
                    Operation::Divides
                } else {
                    Operation::Multiplies
                };
                self.step(context, operation, earlier, right, *at);
            }
            earlier |= right;
        }
        Ok(earlier)
    }

    /// Checks the parts of a power and its steps.
    #[cycle(expression)]
    fn power(&mut self, parts: &[(Place, Expr<F>)], context: Context) -> Result<bool, AllocError>
        ensures noted { OnOk result (seen self.new
            ≡ noted F.value (seen self.old)
            (part_uses (as_part context) in_no_place (seen self.old).controlled (placed_list parts.now) ++
            steps context in_no_place (placed_list parts.now))) }
        ensures variable { IfOk result (λ variable. variable ≡ have_variable (known_of F.value (seen self.old)) (placed_list parts.now)) }
    {
        let mut earlier = false;
        for (i, (at, part)) in parts.iter().enumerate() {
            let right = self.expression(part, context.part(), *at)?;
            if i > 0 {
                self.step(context, Operation::Raises, earlier, right, *at);
            }
            earlier |= right;
        }
        Ok(earlier)
    }

    /// Checks relations. Answers whether they have variables that count: they have none.
    #[cycle(expression)]
    fn relations(
        &mut self,
        parts: &[(RelOp, Expr<F>)],
        context: Context,
        around: Place,
    ) -> Result<bool, AllocError>
        ensures noted { OnOk result (seen self.new
            ≡ noted F.value (seen self.old) ((around, logic context) ∷ part_uses as_number around (seen self.old).controlled (related_list parts.now))) }
        ensures variable { IfOk result (λ variable. variable ≡ false) }
    {
        self.require(context.numbers, ErrorKind::WrongKind, around);
        for (_, part) in parts {
            let _variable = self.expression(part, Context::NUMBER, around)?;
        }
        Ok(false)
    }

    /// Checks the operands of `and`. Answers whether they have variables that count: they have
    /// none.
    #[cycle(expression)]
    fn all_of(
        &mut self,
        parts: &[Expr<F>],
        context: Context,
        around: Place,
    ) -> Result<bool, AllocError>
        ensures noted { OnOk result (seen self.new
            ≡ noted F.value (seen self.old) ((around, logic context) ∷ part_uses as_condition around (seen self.old).controlled (plain_list parts.now))) }
        ensures variable { IfOk result (λ variable. variable ≡ false) }
    {
        self.require(context.numbers, ErrorKind::WrongKind, around);
        let _parts = self.expressions(parts, Context::CONDITION, around)?;
        Ok(false)
    }

    /// Checks the operands of a choice. Answers whether they have variables that count: they have
    /// none.
    #[cycle(expression)]
    fn choice(
        &mut self,
        parts: &[(bool, Expr<F>)],
        context: Context,
        around: Place,
    ) -> Result<bool, AllocError>
        ensures noted { OnOk result (seen self.new
            ≡ noted F.value (seen self.old) ((around, logic context) ∷ part_uses as_condition around (seen self.old).controlled (chosen_list parts.now))) }
        ensures variable { IfOk result (λ variable. variable ≡ false) }
    {
        self.require(context.numbers, ErrorKind::WrongKind, around);
        for (_, part) in parts {
            let _variable = self.expression(part, Context::CONDITION, around)?;
        }
        Ok(false)
    }

    /// Checks the step of a fold, by whether its body has variables.
    fn fold_step(&mut self, context: Context, op: FoldOp, variable: bool, at: Place)
        ensures { seen self.new ≡ faulted (seen self.old) at ((context.variables && (not (is_sum op) && variable), Nonlinear) ∷ []) }
    {
        let linear = is_linear_fold(op, variable);
        self.require_linear(context, linear, at);
    }

    /// Checks a step at its right operand, by whether the operands before it and the right one have
    /// variables.
    fn step(
        &mut self,
        context: Context,
        operation: Operation,
        earlier: bool,
        right: bool,
        at: Place,
    )
        ensures { seen self.new ≡ faulted (seen self.old) at (step_faults context operation earlier right) }
    {
        let occurs = may_step(context, operation);
        let linear = is_linear_step(operation, earlier, right);
        self.require(occurs, ErrorKind::WrongKind, at);
        self.require_linear(context, linear, at);
    }

    /// Checks that a step in an equation is linear.
    fn require_linear(&mut self, context: Context, linear: bool, at: Place)
        ensures { seen self.new ≡ faulted (seen self.old) at ((context.variables && not linear, Nonlinear) ∷ []) }
    {
        let curved = context.variables && !linear;
        self.require(!curved, ErrorKind::Nonlinear, at);
    }
}

/// Whether a fold is linear, by whether its body has variables.
fn is_linear_fold(op: FoldOp, variable: bool) -> bool
    ensures { not result ≡ (not (is_sum op) && variable) }
{
    match op {
        FoldOp::Sum => true,
        _ => !variable,
    }
}

/// Whether a step admits operands of their kind.
fn may_step(context: Context, operation: Operation) -> bool
    ensures { not result ≡ step_wrong context operation }
{
    match operation {
        Operation::Multiplies => true,
        Operation::Divides | Operation::Raises => context.numbers,
    }
}

/// Whether a step is linear, by whether the operands before it and the right one have variables.
fn is_linear_step(operation: Operation, earlier: bool, right: bool) -> bool
    ensures { not result ≡ step_curved operation earlier right }
{
    match operation {
        Operation::Multiplies => !(earlier && right),
        Operation::Divides => !right,
        Operation::Raises => !(earlier || right),
    }
}

/// Whether a function takes `count` arguments. One that is left out takes none.
fn takes(function: Function, count: usize) -> bool
    ensures { result ≡ takes_arguments function count }
{
    match function {
        Function::Max | Function::Min => count > 1,
        Function::Mod | Function::Power => count == 2,
        Function::NotInProfile => false,
        _ => count == 1,
    }
}
