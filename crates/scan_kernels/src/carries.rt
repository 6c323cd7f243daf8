//! What a scan by chunks carries into each chunk: what each chunk carries over its edge by itself, then these one after
//! another (Blelloch 1990).

ghost use Rattle.std.specs.Prelude.{◌≡◌, ◌+◌, ◌-◌, length, take, drop, map, slice_get, All};
ghost use Rattle.item_operations.specs.BooleanScans.{combine_b, unit_b};
ghost use Rattle.item_operations.specs.IntegerScans.{combine_z, unit_z};
ghost use Rattle.scan_kernels.specs.Edges.{CarriesOn, FitsEdge, carried_over};

use crate::choices::{by_name, by_scan_b, by_scan_z};
use crate::edges::Edge;
use crate::placewise::Placewise;
use crate::reduce::reduce_segment;
use item_operations::{Combine, ScanB, ScanZ};

/// What each chunk carries over its edge by itself.
#[derive(Clone, Copy)]
pub struct CarriedOver<'a, O, T> {
    pub op: O,
    pub items: &'a [T],
    pub edges: &'a [Edge],
}

impl Placewise<i64> for CarriedOver<'_, ScanZ, i64> {
    ghost Fits = { λ l. All (FitsEdge (length l.items.now)) l.edges.now };

    ghost items = { λ l. map (carried_over (combine_z l.op) (unit_z l.op) l.items.now) l.edges.now };

    fn count(&self) -> usize {
        self.edges.len()
    }

    fn at(&self, place: usize) -> i64 {
        let op = self.op;
        let items = carried_items(self.items, self.edges[place]);
        by_scan_z!(op, reduce_segment(op, items))
    }
}

impl Placewise<bool> for CarriedOver<'_, ScanB, bool> {
    ghost Fits = { λ l. All (FitsEdge (length l.items.now)) l.edges.now };

    ghost items = { λ l. map (carried_over (combine_b l.op) (unit_b l.op) l.items.now) l.edges.now };

    fn count(&self) -> usize {
        self.edges.len()
    }

    fn at(&self, place: usize) -> bool {
        let op = self.op;
        let items = carried_items(self.items, self.edges[place]);
        by_scan_b!(op, reduce_segment(op, items))
    }
}

/// The items that a chunk carries over its edge.
fn carried_items<'a, T>(items: &'a [T], edge: Edge) -> &'a [T]
    requires { FitsEdge (length items.now) edge }
    ensures { result.now ≡ take (edge.place - edge.from) (drop edge.from items.now) }
{
    &items[edge.from..edge.place]
}

/// Carries on from chunk to chunk, in place. At first the list has what is carried into the first chunk, and then what each
/// chunk carries over its edge by itself.
pub fn carry_on<O: Combine>(op: O, edges: &[Edge], carries: &mut [O::Item])
    requires { length carries.old ≡ length edges.now + 1 }
    ensures first { slice_get carries.new 0 ≡ slice_get carries.old 0 }
    ensures next { CarriesOn (O.combined op) edges.now carries.old carries.new }
{
    for k in 0..edges.len() {
        if !edges[k].began {
            carries[k + 1] = op.combine(carries[k], carries[k + 1]);
        }
    }
}
