// How a call takes the lock of the tree that it shares.

/// What a call answers of the tree as the lock finds it, of which its facts hold.
macro_rules! read {
    ($handle:expr, $rt:expr, |$tree:ident| $call:expr) => {{
        let $tree = $handle.shared.lock($rt);
        let $tree = &*$tree;
        $tree.facts();
        $call
    }};
}

/// `read`, of the tree below a log.
macro_rules! read_tree {
    ($handle:expr, $rt:expr, |$tree:ident| $call:expr) => {{
        let $tree = $handle.shared.lock($rt);
        let $tree = $tree.tree();
        $tree.facts();
        $call
    }};
}

/// What a call answers that may change the tree as the lock finds it. Its facts hold before and after.
macro_rules! act {
    ($handle:expr, $rt:expr, |$tree:ident| $call:expr) => {{
        let mut $tree = $handle.shared.lock($rt);
        let $tree = &mut *$tree;
        $tree.facts();
        let told = $call;
        $tree.facts();
        told
    }};
}

pub(crate) use act;
pub(crate) use read;
pub(crate) use read_tree;
