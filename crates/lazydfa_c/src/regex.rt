//! Regexes and caches.
ghost use Rattle.std.specs.Prelude.{◌≡◌, IfErr, IfOk, None, Ok, OnErr, OnOk, Some, option_map};
ghost use Rattle.automata_config.specs.Options.{overwritten, unset};
ghost use Rattle.lazydfa_c.specs.Builds.{IsFreshOf, IsKeepingPairOf, IsKeepingPairError, IsPairOf, IsPairError};
ghost use Rattle.lazydfa_c.specs.Builds.{HasNoExtras, IsRegexIn, IsBuiltRegex, IsBuildErrorStatus, BuildsRegex};
ghost use Rattle.lazydfa_c.specs.Builds.{BuildsRegexPair};
ghost use Rattle.lazydfa_c.specs.Builds.{IsCacheIn, IsNfaIn, IsNfaOfDraft, NewsCache, OpensAfter, OpensFrom, OpensIn};
ghost use Rattle.lazydfa_c.specs.Builds.{AllStay, IsNotReversed, MakesNoAttempts, OpensPairIn, OpensRegex, ReversesHandle, ReversesRegex};
ghost use Rattle.lazydfa_c.specs.Builds.{SharesHandle, SharesRegex, WithOptions, options_for, reversed};
ghost use Rattle.lazydfa_c.specs.Calls.{ReadsHandle};
ghost use Rattle.lazydfa_c.specs.Handles.{is_open};
ghost use Rattle.lazydfa_c.specs.Programs.{FitsPrograms, contents_of};
ghost use Rattle.lazydfa_c.specs.Statuses.{plain};
ghost use Rattle.lazydfa_c.specs.declared.code.Code.TheVariants as code;
ghost use Rattle.lazydfa_c.specs.declared.object.Object.TheVariants.{Searcher as CacheObject};

use crate::builder::state_id;
use crate::code::Code;
use crate::handle::Handle;
use crate::object::{GroupMemory, InPieces, Object, Searcher, Shared};
use crate::settings::Settings;
use crate::status::Status;
use meta::Programs;
use patterns::{Misses, Pattern};
use regex_automata::PatternSet;
use regex_automata::hybrid::dfa::Config;
use regex_automata::hybrid::regex::{self, Regex};
use regex_automata::nfa::thompson::{Builder, NFA};
use std::alloc::{AllocError, Global};
use std::sync::Arc;

/// The states in which searches start.
#[repr(C)]
#[derive(Clone, Copy)]
pub struct StartStates {
    pub anchored: u32,
    pub unanchored: u32,
}

/// Builds the NFA of a builder, with these start states. It fails with `Code::Argument` if a start is not a valid state
/// ID, and otherwise with the status of the builder's error.
fn nfa_of(builder: &Builder, starts: StartStates) -> Result<NFA, Status>
    ensures { IsNfaOfDraft starts builder.now result }
{
    let anchored = state_id(starts.anchored)?;
    let unanchored = state_id(starts.unanchored)?;
    Ok(builder.build(anchored, unanchored)?)
}

/// Builds the NFA of a builder object, with these start states. It fails with `Code::Kind` if the object is not a
/// builder.
fn nfa_of_object(object: &Object, starts: StartStates) -> Result<NFA, Status>
    ensures { IsNfaIn starts object.now result }
{
    match object {
        Object::Builder(builder) => nfa_of(builder, starts),
        Object::Regex(_) | Object::Searcher(_) => Err(Status::from(Code::Kind)),
    }
}

/// Builds the NFA of a handle's builder, which stays unchanged. It fails with `Code::Closed` if the handle owns
/// nothing, and with `Code::Kind` if it does not own a builder.
fn nfa_in(alloc: Global, builder: &mut Handle, starts: StartStates) -> Result<NFA, Status>
    ensures { ReadsHandle (IsNfaIn starts) builder.old builder.new result }
{
    let Some(object) = builder.take(alloc) else {
        return Err(Status::from(Code::Closed));
    };
    let nfa = nfa_of_object(object.as_ref(), starts);
    builder.put(object);
    nfa
}

/// Returns a builder of regexes with this configuration.
fn builder_of(config: Config) -> regex::Builder
    ensures { result ≡ overwritten unset config }
{
    let mut builder = Regex::builder();
    builder.dfa(config);
    builder
}

/// Builds the regex of one NFA, whose reverse DFA is built from the reversed NFA. It fails with the status of the
/// builder's error.
pub fn regex_of(nfa: NFA, config: Config) -> Result<Regex, Status>
    ensures built { IfOk result (IsBuiltRegex (overwritten unset config) nfa) }
    ensures refused { IfErr result (IsBuildErrorStatus (overwritten unset config) nfa) }
{
    Ok(builder_of(config).build_from_nfa(nfa)?)
}

/// Builds the regex of two NFAs. It fails with the status of the builder's error; whether the NFAs belong together is
/// not checked.
pub fn pair_of(forward: NFA, reverse: NFA, config: Config) -> Result<Regex, Status>
    ensures built { IfOk result (IsPairOf (overwritten unset config) forward reverse) }
    ensures refused { IfErr result (IsPairError (overwritten unset config) forward reverse) }
{
    match builder_of(config).build_from_nfas(forward, reverse) {
        Ok(regex) => Ok(regex),
        Err(error) => Err(Status::from(error)),
    }
}

/// Opens a handle on a regex that others may share. If the allocation fails, the handle is unchanged.
fn open_shared(alloc: Global, handle: &mut Handle, shared: Shared) -> Result<(), Status>
    requires { handle.now.slot.value ≡ None }
    ensures opened { OnOk result (IsRegexIn (contents_of shared) handle.new) }
    ensures same { OnErr result (handle.new ≡ handle.old) }
    ensures err { IfErr result (λ s. s ≡ plain code.Memory) }
{
    let object = Box::new(alloc, Object::Regex(shared))?;
    handle.put(object);
    Ok(())
}

/// Lets programs be shared, if there are any.
fn share_programs(
    alloc: Global,
    programs: Option<Programs>,
) -> Result<Option<Arc<Programs>>, AllocError>
    ensures { IfOk result (λ shared. option_map (λ programs. programs.value) shared ≡ programs) }
{
    match programs {
        Some(programs) => Ok(Some(Arc::new(alloc, programs)?)),
        None => Ok(None),
    }
}

/// Shares a regex, with its programs, and opens a handle on it. If an allocation fails, the handle is unchanged.
pub fn open(
    alloc: Global,
    handle: &mut Handle,
    pattern: Pattern,
    programs: Option<Programs>,
    words: bool,
) -> Result<(), Status>
    requires { handle.now.slot.value ≡ None }
    ensures opened { OnOk result
        (IsRegexIn (record { pattern = pattern; programs = programs; words = words }) handle.new) }
    ensures same { OnErr result (handle.new ≡ handle.old) }
    ensures err { IfErr result (λ s. s ≡ plain code.Memory) }
{
    let pattern = Arc::new(alloc, pattern)?;
    match share_programs(alloc, programs) {
        Ok(programs) => open_shared(
            alloc,
            handle,
            Shared {
                pattern,
                programs,
                words,
            },
        ),
        Err(error) => Err(Status::from(error)),
    }
}

/// Opens a handle on the regex of one NFA.
fn open_sound(alloc: Global, handle: &mut Handle, nfa: NFA, config: Config) -> Result<(), Status>
    requires { handle.now.slot.value ≡ None }
    ensures { OpensRegex (HasNoExtras (IsBuiltRegex (overwritten unset config) nfa))
        (IsBuildErrorStatus (overwritten unset config) nfa)
        handle.old handle.new result }
{
    let regex = regex_of(nfa, config)?;
    let mut pattern = Pattern::from_regex(regex);
    pattern.try_first_bytes();
    open(alloc, handle, pattern, None, false)
}

/// Opens a handle on the regex of two NFAs. An NFA with cycles through look-around assertions keeps its unions.
fn open_pair(
    alloc: Global,
    handle: &mut Handle,
    nfas: (NFA, NFA),
    config: Config,
) -> Result<(), Status>
    requires { handle.now.slot.value ≡ None }
    ensures { OpensRegex (MakesNoAttempts (IsKeepingPairOf (overwritten unset config) nfas.0 nfas.1))
        (IsKeepingPairError (overwritten unset config) nfas.0 nfas.1) handle.old handle.new result }
{
    let (forward, reverse) = nfas;
    let front = forward.keeping_unions();
    let back = reverse.keeping_unions();
    match pair_of(front, back, config) {
        Ok(regex) => open(alloc, handle, Pattern::from_regex(regex), None, false),
        Err(status) => Err(status),
    }
}

/// Opens a handle on the regex of the NFA in another handle's builder, with this configuration. After an error both
/// handles are unchanged.
fn build_of(
    alloc: Global,
    regex: &mut Handle,
    builder: &mut Handle,
    starts: StartStates,
    config: Config,
) -> Result<(), Status>
    requires { regex.now.slot.value ≡ None }
    ensures { OpensIn (overwritten unset config) starts regex.old regex.new builder.old builder.new result }
{
    let nfa = nfa_in(alloc, builder, starts)?;
    open_sound(alloc, regex, nfa, config)
}

/// Returns the configuration for an NFA with these starts and quit bytes. It fails with `Code::OneStart` if both starts
/// are one state and the settings do not allow that, and with `Code::Argument` if the match kind is not valid.
fn config_for(settings: &Settings, quits: &[u8], starts: StartStates) -> Result<Config, Status>
    ensures { result ≡ options_for settings.now quits.now starts }
{
    if starts.anchored == starts.unanchored && settings.always_anchored == 0 {
        return Err(Status::from(Code::OneStart));
    }
    settings.config(quits)
}

/// Opens a handle on the regex of the NFA in another handle's builder, with these settings and quit bytes. It fails
/// with `Code::Open` if the first handle is already open, and otherwise with the errors of `config_for` and `build_of`.
fn build(
    alloc: Global,
    regex: &mut Handle,
    builder: &mut Handle,
    starts: StartStates,
    settings: &Settings,
    quits: &[u8],
) -> Result<(), Status>
    ensures { WithOptions (λ o. OpensIn o starts regex.old regex.new builder.old builder.new)
        ((regex.new ≡ regex.old) × (builder.new ≡ builder.old)) (is_open regex.old.live)
        (options_for settings.now quits.now starts) result }
{
    if regex.is_open() {
        return Err(Status::from(Code::Open));
    }
    let config = config_for(settings, quits, starts)?;
    build_of(alloc, regex, builder, starts, config)
}

/// Opens a handle on the regex of a forward NFA and the reverse NFA of a builder.
fn open_after(
    alloc: Global,
    regex: &mut Handle,
    reverse: &mut Handle,
    starts: StartStates,
    forward: NFA,
    config: Config,
) -> Result<(), Status>
    requires { regex.now.slot.value ≡ None }
    ensures { OpensAfter (overwritten unset config) starts regex.old regex.new reverse.old reverse.new (Ok forward)
        result }
{
    match nfa_in(alloc, reverse, starts) {
        Ok(nfa) => open_pair(alloc, regex, (forward, nfa), config),
        Err(status) => Err(status),
    }
}

/// Opens a handle on the regex of the NFAs in two builders, the forward one first, with this configuration. The second
/// builder is read only if building the first NFA succeeds. After an error all handles are unchanged.
fn build_pair_of(
    alloc: Global,
    regex: &mut Handle,
    forward: &mut Handle,
    reverse: &mut Handle,
    starts: (StartStates, StartStates),
    config: Config,
) -> Result<(), Status>
    requires { regex.now.slot.value ≡ None }
    ensures { OpensPairIn (overwritten unset config) starts.0 starts.1 regex.old regex.new forward.old forward.new
        reverse.old reverse.new result }
{
    let nfa = nfa_in(alloc, forward, starts.0)?;
    open_after(alloc, regex, reverse, starts.1, nfa, config)
}

/// Opens a handle on the regex of the NFAs in two builders, the forward one first. It fails with `Code::Open` if the
/// handle is already open, and with the errors of `config_for` for the forward starts and of `build_pair_of`; after an
/// error all handles are unchanged.
fn build_pair(
    alloc: Global,
    regex: &mut Handle,
    forward: &mut Handle,
    reverse: &mut Handle,
    starts: (StartStates, StartStates),
    settings: &Settings,
    quits: &[u8],
) -> Result<(), Status>
    ensures { WithOptions
        (λ o. OpensPairIn o starts.0 starts.1 regex.old regex.new forward.old forward.new reverse.old reverse.new)
        (AllStay regex.old regex.new forward.old forward.new reverse.old reverse.new) (is_open regex.old.live)
        (options_for settings.now quits.now starts.0) result }
{
    if regex.is_open() {
        return Err(Status::from(Code::Open));
    }
    let config = config_for(settings, quits, starts.0)?;
    build_pair_of(alloc, regex, forward, reverse, starts, config)
}

/// Opens a handle on the regex of the NFA in a builder. The builder stays unchanged.
#[unsafe(no_mangle)]
pub extern "C" fn lazydfa_raw_regex_build(
    alloc: Global,
    regex: &mut Handle,
    builder: &mut Handle,
    starts: &StartStates,
    settings: &Settings,
    quits: &[u8],
) -> Status
    ensures { BuildsRegex settings.now quits.now starts.now regex.old regex.new builder.old builder.new result }
{
    Status::of(build(alloc, regex, builder, *starts, settings, quits))
}

/// Opens a handle on the regex of two NFAs, the second of which matches the same strings backward. The builders stay
/// unchanged.
#[unsafe(no_mangle)]
pub extern "C" fn lazydfa_raw_regex_build_pair(
    alloc: Global,
    regex: &mut Handle,
    forward: &mut Handle,
    forward_starts: &StartStates,
    reverse: &mut Handle,
    reverse_starts: &StartStates,
    settings: &Settings,
    quits: &[u8],
) -> Status
    ensures { BuildsRegexPair settings.now quits.now forward_starts.now reverse_starts.now regex.old regex.new
        forward.old forward.new reverse.old reverse.new result }
{
    let starts = (*forward_starts, *reverse_starts);
    Status::of(build_pair(alloc, regex, forward, reverse, starts, settings, quits))
}

/// Returns another owner of a shared regex.
fn share(shared: &Shared) -> Result<Shared, Status>
    ensures ok { IfOk result (λ s. contents_of s ≡ contents_of shared.now) }
    ensures err { IfErr result (λ s. s ≡ plain code.Memory) }
{
    let pattern = shared.pattern.clone()?;
    match &shared.programs {
        Some(programs) => match programs.clone() {
            Ok(programs) => Ok(Shared {
                pattern,
                programs: Some(programs),
                words: shared.words,
            }),
            Err(error) => Err(Status::from(error)),
        },
        None => Ok(Shared {
            pattern,
            programs: None,
            words: shared.words,
        }),
    }
}

/// Returns another owner of a handle's regex. It fails if the handle is closed or does not own a regex.
fn shared_in(alloc: Global, regex: &mut Handle) -> Result<Shared, Status>
    ensures { SharesRegex regex.old regex.new result }
{
    let Some(object) = regex.take(alloc) else {
        return Err(Status::from(Code::Closed));
    };
    let shared = match object.as_ref() {
        Object::Regex(shared) => share(shared),
        Object::Builder(_) | Object::Searcher(_) => Err(Status::from(Code::Kind)),
    };
    regex.put(object);
    shared
}

/// Opens a handle on another handle's regex, which stays unchanged. It fails with `Code::Open` if the first handle is
/// already open.
fn share_handle(alloc: Global, out: &mut Handle, regex: &mut Handle) -> Result<(), Status>
    ensures { OpensFrom SharesRegex IsRegexIn out.old out.new regex.old regex.new result }
{
    if out.is_open() {
        return Err(Status::from(Code::Open));
    }
    let shared = shared_in(alloc, regex)?;
    open_shared(alloc, out, shared)?;
    Ok(())
}

/// Opens a handle on another handle's regex. The two handles may be used on two threads, and closed in any order.
#[unsafe(no_mangle)]
pub extern "C" fn lazydfa_raw_regex_share(
    alloc: Global,
    regex: &mut Handle,
    out: &mut Handle,
) -> Status
    ensures { SharesHandle out.old out.new regex.old regex.new result }
{
    Status::of(share_handle(alloc, out, regex))
}

/// Returns the regex that reads backward what a shared one reads forward: its two DFAs are swapped. It fails with
/// `Code::PatternCounts` if they differ in their numbers of patterns.
fn reversed(alloc: Global, shared: &Shared) -> Result<Shared, Status>
    ensures ok { IfOk result (λ s.
        MakesNoAttempts (λ regex. regex ≡ reversed shared.now.pattern.value.regex) (contents_of s)) }
    ensures err { IfErr result (IsNotReversed shared.now.pattern.value.regex) }
{
    let forward = shared.pattern.regex.reverse().clone()?;
    let reverse = shared.pattern.regex.forward().clone()?;
    if forward.pattern_len() != reverse.pattern_len() {
        return Err(Status::from(Code::PatternCounts));
    }
    let regex = Regex::builder().build_from_dfas(forward, reverse);
    Ok(Shared {
        pattern: Arc::new(alloc, Pattern::from_regex(regex))?,
        programs: None,
        words: false,
    })
}

/// Reverses a handle's regex. It fails if the handle is closed or does not own a regex.
fn reversed_in(alloc: Global, regex: &mut Handle) -> Result<Shared, Status>
    ensures { ReversesRegex regex.old regex.new result }
{
    let Some(object) = regex.take(alloc) else {
        return Err(Status::from(Code::Closed));
    };
    let shared = match object.as_ref() {
        Object::Regex(shared) => reversed(alloc, shared),
        Object::Builder(_) | Object::Searcher(_) => Err(Status::from(Code::Kind)),
    };
    regex.put(object);
    shared
}

/// Opens a handle on the reverse of another handle's regex, which stays unchanged. It fails with `Code::Open` if the
/// first handle is already open.
fn reverse_handle(alloc: Global, out: &mut Handle, regex: &mut Handle) -> Result<(), Status>
    ensures { OpensFrom ReversesRegex IsRegexIn out.old out.new regex.old regex.new result }
{
    if out.is_open() {
        return Err(Status::from(Code::Open));
    }
    let shared = reversed_in(alloc, regex)?;
    open_shared(alloc, out, shared)?;
    Ok(())
}

/// Opens a handle on the regex that reads backward what another handle's regex reads forward.
#[unsafe(no_mangle)]
pub extern "C" fn lazydfa_raw_regex_reverse(
    alloc: Global,
    regex: &mut Handle,
    out: &mut Handle,
) -> Status
    ensures { ReversesHandle out.old out.new regex.old regex.new result }
{
    Status::of(reverse_handle(alloc, out, regex))
}

/// Returns the memory for groups, if there are programs.
fn memory_for(
    alloc: Global,
    programs: &Option<Arc<Programs>>,
) -> Result<Option<GroupMemory>, AllocError>
    ensures { IfOk result (λ memory.
        FitsPrograms memory (option_map (λ programs. programs.value) programs.now)) }
{
    match programs {
        Some(programs) => match GroupMemory::new(alloc, programs) {
            Ok(memory) => Ok(Some(memory)),
            Err(error) => Err(error),
        },
        None => Ok(None),
    }
}

/// Creates a fresh cache of a regex, with room for a set of the regex's patterns, and with memory for groups if the regex
/// has programs.
fn searcher_of(alloc: Global, shared: Shared) -> Result<Searcher, Status>
    ensures ok { IfOk result (IsFreshOf (contents_of shared)) }
    ensures err { IfErr result (λ s. s ≡ plain code.Memory) }
{
    let cache = shared.pattern.regex.create_cache()?;
    let patterns = PatternSet::new(alloc, shared.pattern.regex.pattern_len())?;
    let groups = memory_for(alloc, &shared.programs)?;
    Ok(Searcher {
        shared,
        cache,
        misses: Misses::none(),
        patterns,
        pieces: InPieces {
            search: None,
            walk: None,
        },
        groups,
    })
}

/// Opens a handle on a cache. If an allocation fails, the handle is unchanged.
fn open_cache(alloc: Global, handle: &mut Handle, searcher: Searcher) -> Result<(), Status>
    requires { handle.now.slot.value ≡ None }
    ensures live { OnOk result (handle.new.live ≡ 1) }
    ensures opened { OnOk result (handle.new.slot.value ≡ Some (CacheObject searcher)) }
    ensures same { OnErr result (handle.new ≡ handle.old) }
    ensures err { IfErr result (λ s. s ≡ plain code.Memory) }
{
    let object = Box::new(alloc, Object::Searcher(searcher))?;
    handle.put(object);
    Ok(())
}

/// Opens a handle on a fresh cache of another handle's regex. It fails with `Code::Open` if the first handle is already
/// open.
fn create_cache(alloc: Global, cache: &mut Handle, regex: &mut Handle) -> Result<(), Status>
    ensures { OpensFrom SharesRegex IsCacheIn cache.old cache.new regex.old regex.new result }
{
    if cache.is_open() {
        return Err(Status::from(Code::Open));
    }
    let shared = shared_in(alloc, regex)?;
    let searcher = searcher_of(alloc, shared)?;
    open_cache(alloc, cache, searcher)?;
    Ok(())
}

/// Opens a handle on a cache of a regex. The cache keeps the regex alive, whose handle may be closed first.
#[unsafe(no_mangle)]
pub extern "C" fn lazydfa_raw_cache_new(
    alloc: Global,
    cache: &mut Handle,
    regex: &mut Handle,
) -> Status
    ensures { NewsCache cache.old cache.new regex.old regex.new result }
{
    Status::of(create_cache(alloc, cache, regex))
}
