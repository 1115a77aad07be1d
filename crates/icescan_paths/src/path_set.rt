//! Paths among which one is found quickly.

ghost use Rattle.std.specs.Prelude.{◌≡◌, ℕ, List, bytes_eq, map};
ghost use Rattle.std.specs.List.{list_any};
ghost use Rattle.std.specs.List.Sorted.{IsSorted};
ghost use Rattle.icescan_paths.specs.Paths.{has, lent, path_order};

/// Paths, in the order of their bytes.
#[derive(Drop)]
pub struct PathSet<'a> {
    paths: Vec<&'a [u8]>,
    ghost sorted: { IsSorted path_order paths.items },
}

impl<'a> PathSet<'a> {
    /// These paths.
    pub fn new(mut paths: Vec<&'a [u8]>) -> Self
        ensures { (path : List ℕ) → has (lent result.paths.items) path ≡ has (lent paths.entry.items) path }
    {
        paths.sort_unstable();
        PathSet { paths }
    }

    /// Whether a path is one of them.
    pub fn has(&self, path: &[u8]) -> bool
        ensures { result ≡ has (lent self.now.paths.items) path.now }
    {
        self.paths.binary_search(&path).is_ok()
    }
}
