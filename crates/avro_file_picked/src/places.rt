//! Places of values.

ghost use Rattle.std.specs.Prelude.{◌≡◌};

/// Where the values of an object begin. One list serves for all objects of a file, and never grows.
#[derive(Debug, Drop)]
pub struct Places {
    pub(crate) starts: Vec<usize>,
    /// Where the last value ends; none where the object was read in another way.
    pub(crate) end: Option<usize>,
}

impl Places {
    ghost use Rattle.avro_file_picked.specs.Rows.{place_at};

    /// Where the value of a step begins, in a row that ends there.
    pub(crate) fn start_of(&self, step: usize, end: usize) -> usize
        ensures { result ≡ place_at self.now.starts.items end step }
    {
        if step < self.starts.len() {
            self.starts[step]
        } else {
            end
        }
    }
}
