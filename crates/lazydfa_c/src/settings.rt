//! The settings of a regex, as C lays them out. The default settings are all zeros.
ghost use Rattle.std.specs.Prelude.{◌≡◌, None};
ghost use Rattle.lazydfa_c.specs.Builds.{capacity_of, kind_of, limit_if, limit_of, options_of, with_quits};

use crate::code::Code;
use crate::status::Status;
use regex_automata::MatchKind;
use regex_automata::hybrid::dfa::Config;

/// The settings of a regex. The capacity and its limit are in bytes. Each of the first four numbers is used only if its
/// `has` is not 0. Without them the capacity is 8 MiB, and it is raised to four times the least capacity of a regex that
/// is large, up to 256 MiB. A capacity that is set is raised only if the limit is set too.
#[repr(C)]
#[derive(Clone, Copy)]
pub struct Settings {
    pub cache_capacity: usize,
    pub cache_limit: usize,
    pub minimum_cache_clear_count: usize,
    pub minimum_bytes_per_state: usize,
    pub has_cache_capacity: u32,
    pub has_cache_limit: u32,
    pub has_minimum_cache_clear_count: u32,
    pub has_minimum_bytes_per_state: u32,
    /// The match kind: 0 for leftmost-first, 1 for all.
    pub match_kind: u32,
    pub starts_for_each_pattern: u32,
    pub no_byte_classes: u32,
    pub unicode_word_boundary: u32,
    pub specialize_start_states: u32,
    pub skip_cache_capacity_check: u32,
    /// Whether both starts may be one state, in which case every search is anchored.
    pub always_anchored: u32,
}

/// Returns the configuration with these quit bytes added.
fn with_quits(config: Config, quits: &[u8]) -> Config
    ensures { result ≡ with_quits config quits.now }
{
    let mut config = config;
    for byte in quits {
        config = config.quit(*byte, true);
    }
    config
}

impl Settings {
    /// Returns the match kind: 0 is leftmost-first, 1 is all. It fails with `Code::Argument` for any other number.
    fn kind(&self) -> Result<MatchKind, Status>
        ensures { result ≡ kind_of self.now.match_kind }
    {
        match self.match_kind {
            0 => Ok(MatchKind::LeftmostFirst),
            1 => Ok(MatchKind::All),
            _ => Err(Status::from(Code::Argument)),
        }
    }

    /// Returns the capacity of a cache, in bytes.
    pub fn capacity(&self) -> usize
        ensures { result ≡ capacity_of self.now }
    {
        if self.has_cache_capacity != 0 {
            self.cache_capacity
        } else {
            8388608
        }
    }

    /// Returns the bytes up to which the capacity is raised.
    pub fn limit(&self) -> usize
        ensures { result ≡ limit_of self.now }
    {
        if self.has_cache_limit != 0 {
            self.cache_limit
        } else if self.has_cache_capacity != 0 {
            0
        } else {
            268435456
        }
    }

    /// Returns the configuration with those minima that are set: of cache clears, and of bytes searched for each state.
    fn with_minima(&self, config: Config) -> Config
        requires clears { config.minimum_cache_clear_count ≡ None }
        requires bytes { config.minimum_bytes_per_state ≡ None }
        ensures { result ≡ record config {
          minimum_cache_clear_count =
              limit_if self.now.has_minimum_cache_clear_count self.now.minimum_cache_clear_count;
          minimum_bytes_per_state = limit_if self.now.has_minimum_bytes_per_state self.now.minimum_bytes_per_state;
        } }
    {
        let mut config = config;
        if self.has_minimum_cache_clear_count != 0 {
            config = config.minimum_cache_clear_count(Some(self.minimum_cache_clear_count));
        }
        if self.has_minimum_bytes_per_state != 0 {
            config = config.minimum_bytes_per_state(Some(self.minimum_bytes_per_state));
        }
        config
    }

    /// Returns the configuration for these settings and quit bytes.
    pub fn config(&self, quits: &[u8]) -> Result<Config, Status>
        ensures { result ≡ options_of self.now quits.now (kind_of self.now.match_kind) }
    {
        let kind = self.kind()?;
        let config = Config::new()
            .match_kind(kind)
            .starts_for_each_pattern(self.starts_for_each_pattern != 0)
            .byte_classes(self.no_byte_classes == 0)
            .unicode_word_boundary(self.unicode_word_boundary != 0)
            .specialize_start_states(self.specialize_start_states != 0)
            .cache_capacity(self.capacity())
            .cache_limit(self.limit())
            .skip_cache_capacity_check(self.skip_cache_capacity_check != 0);
        Ok(with_quits(self.with_minima(config), quits))
    }
}
