//! The shape of an index, by the words of a line.
use crate::asked::Asked;
use segclient::Shape;
use segshards::ShardPlan;

/// For so many keys, and writers if they are named. Or of these numbers, or of those that stand for them.
/// None: there is no such shape, or it would be of several shards.
pub fn shape_asked(asked: &Asked<'_>) -> Option<Shape> {
    let clients = asked.number("clients").unwrap_or(1);
    match (asked.number("keys"), asked.number("writers")) {
        (Some(keys), None) => Shape::for_keys(keys, clients).ok(),
        (Some(keys), Some(writers)) => {
            let plan = ShardPlan::for_writers(keys, clients, writers).ok()?;
            if plan.count == 1 {
                Some(plan.shape)
            } else {
                None
            }
        }
        (None, _) => Some(Shape {
            buckets: asked.number("buckets").unwrap_or(128),
            overflow: asked.number("overflow").unwrap_or(128),
            passes: clients,
            segments_each: asked.number("segments").unwrap_or(16),
            rows: asked.number("rows").unwrap_or(8),
            first_version: 0,
        }),
    }
}
