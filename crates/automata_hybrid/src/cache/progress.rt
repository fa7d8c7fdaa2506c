//! The number of bytes searched since the last clear. If the settings have a minimum per state, a search gives up only
//! below it.
ghost use Rattle.std.specs.Prelude.{◌≡◌, ◌+◌, ◌-◌, Some, None};
ghost use Rattle.automata_hybrid.specs.Cache.Progress.{distance, progress_finished, progress_started, progress_updated};
ghost use Rattle.automata_hybrid.specs.Cache.Progress.{progress_cleared, saturated, total_len};

/// A running search: where it began, and where it is.
#[derive(Clone, Copy)]
pub struct Progress {
    pub start: usize,
    pub place: usize,
}

/// The bytes searched since the last clear, and the running search.
#[derive(Clone, Copy)]
pub struct Searched {
    pub bytes: usize,
    pub running: Option<Progress>,
}

impl Progress {
    /// Returns the number of bytes between the two offsets.
    pub fn distance(self) -> usize
        ensures { result ≡ distance self }
    {
        if self.start < self.place {
            self.place - self.start
        } else {
            self.start - self.place
        }
    }
}

impl Searched {
    /// Returns the number of bytes searched, including those of the open search.
    pub fn total_len(&self) -> usize
        ensures { result ≡ total_len self.now }
    {
        match self.running {
            None => self.bytes,
            Some(running) => self.bytes.saturating_add(running.distance()),
        }
    }

    /// Returns the number of bytes searched once the open search has reached `at`.
    pub fn total_at(&self, at: usize) -> usize
        ensures { result ≡ total_len (progress_updated self.now at) }
    {
        let mut come = *self;
        come.update(at);
        come.total_len()
    }

    /// Records that a search begins at an offset; a search that is open ends.
    pub fn start(&mut self, at: usize)
        ensures { self.new ≡ progress_started self.old at }
    {
        if let Some(running) = self.running {
            self.bytes = self.bytes.saturating_add(running.distance());
        }
        self.running = Some(Progress {
            start: at,
            place: at,
        });
    }

    /// Records that the open search has reached `at`.
    pub fn update(&mut self, at: usize)
        ensures { self.new ≡ progress_updated self.old at }
    {
        if let Some(running) = &mut self.running {
            running.place = at;
        }
    }

    /// Records that the open search ends at an offset; then none is open.
    pub fn finish(&mut self, at: usize)
        ensures { self.new ≡ progress_finished self.old at }
    {
        if let Some(running) = self.running {
            let whole = Progress {
                start: running.start,
                place: at,
            };
            self.bytes = self.bytes.saturating_add(whole.distance());
            self.running = None;
        }
    }

    /// Records a search that reads `bytes` bytes, from its beginning to its end. A search that is open ends.
    #[inline(always)]
    pub fn count(&mut self, bytes: usize)
        ensures { self.new ≡ record { bytes = saturated (total_len self.old + bytes); running = None } }
    {
        if self.running.is_some() {
            self.bytes = self.total_len();
            self.running = None;
        }
        self.bytes = self.bytes.saturating_add(bytes);
    }

    /// Returns the progress after a clear: no bytes, and an open search as if it began where it is now.
    pub fn cleared(&self) -> Searched
        ensures { result ≡ progress_cleared self.now }
    {
        Searched {
            bytes: 0,
            running: match self.running {
                None => None,
                Some(running) => Some(Progress {
                    start: running.place,
                    place: running.place,
                }),
            },
        }
    }
}
