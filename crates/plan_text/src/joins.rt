//! The entries of the object of a join: keys in byte order, with what stands there.
ghost use Rattle.std.specs.Prelude.{IfOk};
ghost use Rattle.plan_text_pieces.specs.Pieces.{Tells};
ghost use Rattle.plan_text.specs.Nodes.{join_data};

use plan_core::{Items, Node, Schema};
use plan_expr::ExprIR;
use plan_join::JoinOptions;
use plan_text_pieces::{
    Entries, Piece, coalesce_name, how_name, optional_kind_options, optional_name, optional_slice,
    order_name,
};
use std::alloc::{AllocError, Global};

/// The entries of a join.
#[tactic(auto, unfolding(crate::specs::Nodes::join_data))]
pub fn join<'a>(
    alloc: Global,
    left: Node,
    right: Node,
    schema: &'a Schema,
    left_on: &'a Items<ExprIR>,
    right_on: &'a Items<ExprIR>,
    options: &'a JoinOptions,
) -> Result<Entries<'a>, AllocError>
    ensures { IfOk result (λ es. Tells es.items
        (join_data left right schema.now left_on.now right_on.now options.now)) }
{
    Vec::from_slice(
        alloc,
        &[
            (
                "coalesce",
                Piece::Text(coalesce_name(options.args.coalesce)),
            ),
            ("how", Piece::Text(how_name(options.args.how))),
            ("join_nulls", Piece::Boolean(options.args.join_nulls)),
            ("left", Piece::Number(left.0)),
            ("left_on", Piece::Outputs(left_on.as_slice())),
            (
                "maintain_order",
                Piece::Text(order_name(options.args.maintain_order)),
            ),
            ("op", Piece::Text("Join")),
            ("options", optional_kind_options(&options.options)),
            (
                "parallel",
                Piece::BooleanPair(options.allow_parallel, options.force_parallel),
            ),
            ("right", Piece::Number(right.0)),
            ("right_on", Piece::Outputs(right_on.as_slice())),
            ("schema", Piece::Columns(schema)),
            ("slice", optional_slice(options.args.slice)),
            ("suffix", optional_name(&options.args.suffix)),
        ],
    )
}
