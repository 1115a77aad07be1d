//! How big a drill is.

ghost use Rattle.std.specs.Prelude.{◌≡◌, ◌⊎◌, ◌<◌, ◌≤◌, ◌*◌, ◌+◌, MatchOption};

/// How many threads drill, from 1 to 64, and how many commits each of them makes, from 1 to 100.
#[derive(Clone, Copy, Debug, PartialEq, Eq)]
pub struct Drill {
    threads: u64,
    commits: u64,
    ghost some_threads: { (0 < threads) × (threads ≤ 64) },
    ghost some_commits: { (0 < commits) × (commits ≤ 100) },
}

impl Drill {
    /// So many threads with so many commits each, where a drill may have them.
    pub fn new(threads: u64, commits: u64) -> Option<Drill>
        ensures { MatchOption result (((threads ≡ 0) ⊎ (64 < threads)) ⊎ ((commits ≡ 0) ⊎ (100 < commits)))
            (λ drill. (drill.threads ≡ threads) × (drill.commits ≡ commits)) }
    {
        if threads == 0 || threads > 64 || commits == 0 || commits > 100 {
            return None;
        }
        Some(Drill { threads, commits })
    }

    /// How many threads there are.
    pub fn threads(self) -> u64
        ensures { result ≡ self.threads }
    {
        self.threads
    }

    /// How many commits each thread makes.
    pub fn commits(self) -> u64
        ensures { result ≡ self.commits }
    {
        self.commits
    }

    /// How often a commit is tried at most: each conflict shows the commit of another thread, so this is enough.
    pub fn tries(self) -> u64
        ensures { result ≡ self.threads * self.commits + 1 }
    {
        self.threads * self.commits + 1
    }
}
