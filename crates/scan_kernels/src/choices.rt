//! The operations by name: each arm does the same with an operation that it names, so that the loops that are inlined
//! there are built for each operation, without a choice at each item or at each part.

macro_rules! by_name {
    ($op:ident: $kind:ident { $($name:ident)* }, $run:expr) => {
        match $op {
            $($kind::$name => {
                let $op = $kind::$name;
                $run
            })*
        }
    };
}

macro_rules! by_z1 {
    ($op:ident, $run:expr) => {
        by_name!($op: Z1 { Not Cpy }, $run)
    };
}

macro_rules! by_b1 {
    ($op:ident, $run:expr) => {
        by_name!($op: B1 { Not Cpy }, $run)
    };
}

macro_rules! by_z2 {
    ($op:ident, $run:expr) => {
        by_name!($op: Z2 { Add Sub Mul Div Mod Max Min And Ior Xor Lsh Rsh }, $run)
    };
}

macro_rules! by_b2 {
    ($op:ident, $run:expr) => {
        by_name!($op: B2 { And Ior Xor }, $run)
    };
}

macro_rules! by_comparison {
    ($op:ident, $run:expr) => {
        by_name!($op: Cmp { Eql Neq Les Leq Grt Geq }, $run)
    };
}

macro_rules! by_scan_z {
    ($op:ident, $run:expr) => {
        by_name!($op: ScanZ { Add Mul Max Min And Ior Xor }, $run)
    };
}

macro_rules! by_scan_b {
    ($op:ident, $run:expr) => {
        by_name!($op: ScanB { And Ior Xor }, $run)
    };
}

pub(crate) use by_b1;
pub(crate) use by_b2;
pub(crate) use by_comparison;
pub(crate) use by_name;
pub(crate) use by_scan_b;
pub(crate) use by_scan_z;
pub(crate) use by_z1;
pub(crate) use by_z2;
