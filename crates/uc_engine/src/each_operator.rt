//! Calls that a store of each operator has alike, and its views, jobs and checkpoints: the only matches over all operators.

/// Does the same with what is inside.
macro_rules! with_each {
    ($any:ident, $value:expr, $inside:ident => $done:expr) => {
        match $value {
            $any::Append($inside) => $done,
            $any::Counter($inside) => $done,
            $any::Maximum($inside) => $done,
            $any::Tail($inside) => $done,
            $any::Mixed($inside) => $done,
        }
    };
}

pub(crate) use with_each;

/// Makes something of the same operator of what is inside.
macro_rules! map_each {
    ($any:ident => $made:ident, $value:expr, $inside:ident => $done:expr) => {
        match $value {
            $any::Append($inside) => $made::Append($done),
            $any::Counter($inside) => $made::Counter($done),
            $any::Maximum($inside) => $made::Maximum($done),
            $any::Tail($inside) => $made::Tail($done),
            $any::Mixed($inside) => $made::Mixed($done),
        }
    };
}

pub(crate) use map_each;

/// The operator of a store.
macro_rules! kind_of {
    ($any:ident, $value:expr) => {
        match $value {
            $any::Append(_) => OperatorKind::Append,
            $any::Counter(_) => OperatorKind::Counter,
            $any::Maximum(_) => OperatorKind::Maximum,
            $any::Tail(_) => OperatorKind::Tail,
            $any::Mixed(_) => OperatorKind::Mixed,
        }
    };
}

pub(crate) use kind_of;
