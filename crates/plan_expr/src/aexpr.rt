//! Expressions, in an arena of their own.
ghost use Rattle.std.specs.Prelude.{◌≡◌, ◌≤◌, ◌^◌, length, slice_get, Some, None, IfOk, IfSome, IfNone};
ghost use Rattle.plan_expr.specs.Operands.{operands_of, over_operands};

use crate::agg::IRAggExpr;
use crate::function_expr::FunctionExpr;
use crate::literal::LiteralValue;
use crate::nodes::{append, at, copied};
use crate::operator::Operator;
use plan_core::{Items, Node, PlSmallStr, TryClone};
use plan_options::FunctionOptions;
use plan_tree::Entry;
use std::alloc::{AllocError, Global};

/// An expression; it names the expressions that it is made of by their numbers.
#[derive(Drop, PartialEq, Eq, Debug)]
pub enum AExpr {
    /// The values of the column of this name.
    Column(PlSmallStr),
    /// One value, the same for every row.
    Literal(LiteralValue),
    /// The expression of this number, under another name.
    Alias(Node, PlSmallStr),
    /// What the operator gives for the two sides, row by row.
    BinaryExpr {
        /// The number of the left side.
        left: Node,
        /// What is done with the sides.
        op: Operator,
        /// The number of the right side.
        right: Node,
    },
    /// A choice between two expressions, row by row.
    Ternary {
        /// The number of the expression that chooses.
        predicate: Node,
        /// The number of the expression that is taken where it is true.
        truthy: Node,
        /// The number of the expression that is taken elsewhere.
        falsy: Node,
    },
    /// What is made of all values of an expression.
    Agg(IRAggExpr),
    /// What a function gives for its inputs.
    Function {
        /// The numbers of the inputs, in order.
        input: Items<Node>,
        /// The function.
        function: FunctionExpr,
        /// What the function does beside its values.
        options: FunctionOptions,
    },
    /// For each row, an expression over the rows that have the same keys.
    Window {
        /// The number of the expression.
        function: Node,
        /// The numbers of the keys, in order.
        partition_by: Items<Node>,
    },
    /// How many rows there are.
    Len,
}

// The number of the rows.
impl Default for AExpr {
    ghost use Rattle.plan_expr.specs.declared.aexpr.AExpr.TheVariants.{Len};
    ghost use Rattle.std.specs.Prelude.{◌≡◌};

    ghost is_default = { λ expr. expr ≡ Len };

    fn default() -> Self {
        AExpr::Len
    }
}

impl TryClone for AExpr {
    fn try_clone(&self, alloc: Global) -> Result<Self, AllocError>
        ensures { IfOk result (λ r. r ≡ self.now) }
    {
        match self {
            AExpr::Column(name) => Ok(AExpr::Column(name.try_clone(alloc)?)),
            AExpr::Literal(value) => Ok(AExpr::Literal(value.try_clone(alloc)?)),
            AExpr::Alias(input, name) => Ok(AExpr::Alias(*input, name.try_clone(alloc)?)),
            AExpr::BinaryExpr { left, op, right } => Ok(AExpr::BinaryExpr {
                left: *left,
                op: *op,
                right: *right,
            }),
            AExpr::Ternary {
                predicate,
                truthy,
                falsy,
            } => Ok(AExpr::Ternary {
                predicate: *predicate,
                truthy: *truthy,
                falsy: *falsy,
            }),
            AExpr::Agg(agg) => Ok(AExpr::Agg(*agg)),
            AExpr::Function {
                input,
                function,
                options,
            } => Ok(AExpr::Function {
                input: copied(alloc, input.as_slice())?,
                function: *function,
                options: *options,
            }),
            AExpr::Window {
                function,
                partition_by,
            } => Ok(AExpr::Window {
                function: *function,
                partition_by: copied(alloc, partition_by.as_slice())?,
            }),
            AExpr::Len => Ok(AExpr::Len),
        }
    }
}

impl Entry for AExpr {
    ghost use Rattle.plan_expr.specs.Operands.{is_bad_expr, operands_of};

    ghost inputs = { operands_of };

    ghost bad = { is_bad_expr };

    fn is_bad(&self) -> bool {
        false
    }

    fn copy_inputs(&self, out: &mut Items<Node>) -> Result<(), AllocError> {
        match self {
            AExpr::Column(_) | AExpr::Literal(_) | AExpr::Len => Ok(()),
            AExpr::Alias(input, _) => {
                out.push(*input)?;
                Ok(())
            }
            AExpr::BinaryExpr { left, right, .. } => append(out, &[*left, *right]),
            AExpr::Ternary {
                predicate,
                truthy,
                falsy,
            } => append(out, &[*truthy, *falsy, *predicate]),
            AExpr::Agg(agg) => {
                out.push(agg.input())?;
                Ok(())
            }
            AExpr::Function { input, .. } => append(out, input.as_slice()),
            AExpr::Window {
                function,
                partition_by,
            } => {
                out.push(*function)?;
                append(out, partition_by.as_slice())
            }
        }
    }
}

impl AExpr {
    ghost use Rattle.plan_expr.specs.Walks.{column_name};

    /// The operand of a place, counted from 0 in walk order, if there are so many. Where there is one, its place is small
    /// enough to ask for the next.
    pub fn operand(&self, place: usize) -> Option<Node>
        ensures there { result ≡ slice_get (operands_of self.now) place }
        ensures further { IfSome result (λ _. place ≤ 2 ^ 63) }
    {
        match (self, place) {
            (AExpr::Alias(input, _), 0) => Some(*input),
            (AExpr::BinaryExpr { left, .. }, 0) => Some(*left),
            (AExpr::BinaryExpr { right, .. }, 1) => Some(*right),
            (AExpr::Ternary { truthy, .. }, 0) => Some(*truthy),
            (AExpr::Ternary { falsy, .. }, 1) => Some(*falsy),
            (AExpr::Ternary { predicate, .. }, 2) => Some(*predicate),
            (AExpr::Agg(agg), 0) => Some(agg.input()),
            (AExpr::Function { input, .. }, _) => at(input.as_slice(), place),
            (AExpr::Window { function, .. }, 0) => Some(*function),
            (AExpr::Window { partition_by, .. }, _) => at(partition_by.as_slice(), place - 1),
            _ => None,
        }
    }

    /// A copy over other operands, as many as the expression has. Refuses for want of memory alone.
    pub fn with_operands(&self, alloc: Global, operands: &[Node]) -> Result<AExpr, AllocError>
        requires { length operands.now ≡ length (operands_of self.now) }
        ensures operands { IfOk result (λ expr. operands_of expr ≡ operands.now) }
        ensures expr { IfOk result (λ expr. expr ≡ over_operands self.now operands.now) }
    {
        match self {
            AExpr::Column(name) => Ok(AExpr::Column(name.try_clone(alloc)?)),
            AExpr::Literal(value) => Ok(AExpr::Literal(value.try_clone(alloc)?)),
            AExpr::Alias(_, name) => Ok(AExpr::Alias(operands[0], name.try_clone(alloc)?)),
            AExpr::BinaryExpr { op, .. } => Ok(AExpr::BinaryExpr {
                left: operands[0],
                op: *op,
                right: operands[1],
            }),
            AExpr::Ternary { .. } => Ok(AExpr::Ternary {
                predicate: operands[2],
                truthy: operands[0],
                falsy: operands[1],
            }),
            AExpr::Agg(agg) => Ok(AExpr::Agg(agg.over(operands[0]))),
            AExpr::Function {
                function,
                options,
                ..
            } => Ok(AExpr::Function {
                input: copied(alloc, operands)?,
                function: *function,
                options: *options,
            }),
            AExpr::Window { .. } => Ok(AExpr::Window {
                function: operands[0],
                partition_by: copied(alloc, &operands[1..])?,
            }),
            AExpr::Len => Ok(AExpr::Len),
        }
    }

    /// The name of the column that the expression is, if it is one.
    pub fn column_name(&self) -> Option<&str>
        ensures some { IfSome result (λ name. column_name self.now ≡ Some name.now) }
        ensures none { IfNone result (column_name self.now ≡ None) }
    {
        match self {
            AExpr::Column(name) => Some(name.as_str()),
            _ => None,
        }
    }
}
