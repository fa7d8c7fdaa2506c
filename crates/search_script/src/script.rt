//! The lines of a script, read and checked.

ghost use Rattle.std.specs.Prelude.{◌+◌, ◌≤◌, length};

use crate::catalogue::Entry;
use crate::error::RunError;
use crate::keyword::{Keyword, option_of};
use crate::states::Outline;
use crate::words::{LineError, hexadecimal_byte, number, only_number, split_once};
use regex_automata::hybrid::dfa::Config;
use regex_automata::util::primitives::PatternID;
use regex_automata::util::search::{Anchored, Direction, Input, MatchKind, Span};
use replay::Request;
use std::alloc::{AllocError, Global};

/// The definitions and orders of a script, in the order of its lines.
#[derive(Drop)]
pub struct Script {
    pub(crate) definitions: Vec<Definition>,
    orders: Vec<Order>,
}

/// A line that builds an NFA or a regex.
#[derive(Drop)]
pub enum Definition {
    Nfa(Outline),
    Regex { source: Source, config: Config },
}

/// What a regex is built from. An NFA that the script defines is named by its number.
#[derive(Clone, Copy)]
pub enum Source {
    /// Both NFAs of an entry.
    Entry(Entry),
    /// The forward NFA of an entry, which the library reverses for reverse searches.
    EntryMade(Entry),
    /// Two NFAs, the second for reverse searches.
    Pair(usize, usize),
    /// An NFA, which the library reverses for reverse searches.
    Made(usize),
}

/// A line that makes a request. It owns its haystack.
#[derive(Drop)]
enum Order {
    SearchFwd(Query),
    SearchRev(Query),
    Find(Query),
    IsMatch(Query),
    Iterate(Query),
    Tokenise(Query),
    BeginWalk { way: Direction, query: Query },
    StepWalk(usize),
    Which { capacity: usize, query: Query },
    Reset(usize),
}

/// A haystack, and the options of its search.
#[derive(Drop)]
struct Query {
    haystack: Vec<u8>,
    span: Span,
    anchored: Anchored,
    earliest: bool,
    ghost ordered: { span.start ≤ span.end + 1 },
    ghost within: { span.end ≤ length haystack.items },
}

impl Script {
    /// Reads all lines. If any line is bad, the error has the number of the first bad one, counted from 1.
    pub fn parse(alloc: Global, text: &[u8]) -> Result<Script, RunError> {
        let mut script = Script {
            definitions: Vec::new(alloc),
            orders: Vec::new(alloc),
        };
        let mut number = 0usize;
        for line in text.split(|byte| *byte == b'\n') {
            number = number.saturating_add(1);
            if line.is_empty() || line[0] == b'#' {
                continue;
            }
            if let Err(fault) = script.add_line(alloc, line) {
                return Err(fault_at(number, fault));
            }
        }
        Ok(script)
    }

    /// Returns the requests, over the haystacks that the script owns.
    pub fn requests(&self, alloc: Global) -> Result<Vec<Request<'_>>, AllocError> {
        self.orders
            .iter()
            .map(|order| order.request())
            .collect(alloc)
    }

    /// Reads a line, which is neither empty nor a comment, and adds its definition or order.
    fn add_line(&mut self, alloc: Global, line: &[u8]) -> Result<(), LineError> {
        let words: Vec<&[u8]> = line.split(|byte| *byte == b' ').collect(alloc)?;
        if words.iter().any(|word| word.is_empty()) {
            return Err(LineError::Bad);
        }
        let [first, rest @ ..] = words.as_slice() else {
            return Err(LineError::Bad);
        };
        match Keyword::spelled(*first) {
            Some(Keyword::Nfa) => {
                let outline = Outline::parse(alloc, rest)?;
                self.add_definition(Definition::Nfa(outline))
            }
            Some(Keyword::Regex) => {
                let definition = Definition::parse(rest).ok_or(LineError::Bad)?;
                self.add_definition(definition)
            }
            Some(keyword) => {
                let order = Order::parse(alloc, keyword, rest)?;
                self.add_order(order)
            }
            None => Err(LineError::Bad),
        }
    }

    /// Adds a definition. The line is bad if an order came before it.
    fn add_definition(&mut self, definition: Definition) -> Result<(), LineError> {
        if !self.orders.is_empty() {
            return Err(LineError::Bad);
        }
        Ok(self.definitions.push(definition).map_err(AllocError::from)?)
    }

    /// Adds an order after the others.
    fn add_order(&mut self, order: Order) -> Result<(), LineError> {
        Ok(self.orders.push(order).map_err(AllocError::from)?)
    }
}

impl Definition {
    /// Reads the words of a line that builds a regex.
    fn parse(words: &[&[u8]]) -> Option<Definition> {
        let (source, options) = Source::parse(words)?;
        let mut config = Config::new();
        for option in options {
            config = configured(config, *option)?;
        }
        Some(Definition::Regex { source, config })
    }
}

impl Source {
    /// Reads what a regex is built from, and returns the remaining words too.
    fn parse<'a, 'b>(words: &'a [&'b [u8]]) -> Option<(Source, &'a [&'b [u8]])> {
        let (first, rest) = words.split_first()?;
        match (Entry::named(*first), after_made(rest)) {
            (Some(entry), Some(options)) => Some((Source::EntryMade(entry), options)),
            (Some(entry), None) => Some((Source::Entry(entry), rest)),
            (None, Some(options)) => Some((Source::Made(number(*first)?), options)),
            (None, None) => {
                let (second, options) = rest.split_first()?;
                let source = Source::Pair(number(*first)?, number(*second)?);
                Some((source, options))
            }
        }
    }
}

/// Returns the words after `made`, by which the library builds the reverse NFA, if that is the first word.
fn after_made<'a, 'b>(words: &'a [&'b [u8]]) -> Option<&'a [&'b [u8]]> {
    let (first, rest) = words.split_first()?;
    match Keyword::spelled(*first)? {
        Keyword::Made => Some(rest),
        _ => None,
    }
}

/// Returns the error of the line with this number.
fn fault_at(number: usize, error: LineError) -> RunError {
    match error {
        LineError::Bad => RunError::BadLine(number),
        LineError::OutOfMemory => RunError::OutOfMemory,
    }
}

impl Order {
    /// Reads an order, given its keyword and the words after it.
    fn parse(alloc: Global, keyword: Keyword, words: &[&[u8]]) -> Result<Order, LineError> {
        let order = match keyword {
            Keyword::Forward => Order::SearchFwd(Query::parse(alloc, words)?),
            Keyword::Reverse => Order::SearchRev(Query::parse(alloc, words)?),
            Keyword::Find => Order::Find(Query::parse(alloc, words)?),
            Keyword::IsMatch => Order::IsMatch(Query::parse(alloc, words)?),
            Keyword::Iterate => Order::Iterate(Query::parse(alloc, words)?),
            Keyword::Tokenise => Order::Tokenise(Query::parse(alloc, words)?),
            Keyword::Walk => return Order::parse_walk(alloc, words),
            Keyword::Step => Order::StepWalk(only_number(words)?),
            Keyword::Which => return Order::parse_which(alloc, words),
            Keyword::Reset => Order::Reset(only_number(words)?),
            _ => return Err(LineError::Bad),
        };
        Ok(order)
    }

    /// Reads the words of an order that begins a walk: its direction, a haystack, and options.
    fn parse_walk(alloc: Global, words: &[&[u8]]) -> Result<Order, LineError> {
        let (direction, rest) = words.split_first().ok_or(LineError::Bad)?;
        let way = match Keyword::spelled(*direction) {
            Some(Keyword::Forward) => Direction::Forward,
            Some(Keyword::Reverse) => Direction::Backward,
            _ => return Err(LineError::Bad),
        };
        let query = Query::parse(alloc, rest)?;
        Ok(Order::BeginWalk { way, query })
    }

    /// Reads the words of an order for a set of patterns: its capacity, a haystack, and options.
    fn parse_which(alloc: Global, words: &[&[u8]]) -> Result<Order, LineError> {
        let (word, rest) = words.split_first().ok_or(LineError::Bad)?;
        let capacity = number(*word).ok_or(LineError::Bad)?;
        let query = Query::parse(alloc, rest)?;
        Ok(Order::Which { capacity, query })
    }

    /// Returns the request of the order, over the haystack that the order owns.
    fn request(&self) -> Request<'_> {
        match self {
            Order::SearchFwd(query) => Request::SearchFwd(query.input()),
            Order::SearchRev(query) => Request::SearchRev(query.input()),
            Order::Find(query) => Request::Find(query.input()),
            Order::IsMatch(query) => Request::IsMatch(query.input()),
            Order::Iterate(query) => Request::Iterate(query.input()),
            Order::Tokenise(query) => Request::Tokenise(query.input()),
            Order::BeginWalk { way, query } => Request::BeginWalk {
                way: *way,
                input: query.input(),
            },
            Order::StepWalk(number) => Request::StepWalk(*number),
            Order::Which { capacity, query } => Request::Which {
                capacity: *capacity,
                input: query.input(),
            },
            Order::Reset(number) => Request::Reset(*number),
        }
    }
}

/// Returns the settings with one more option set, or none if the word is not an option.
pub fn configured(config: Config, option: &[u8]) -> Option<Config> {
    Some(match option_of(option)? {
        (Keyword::All, None) => config.match_kind(MatchKind::All),
        (Keyword::Starts, None) => config.starts_for_each_pattern(true),
        (Keyword::NoClasses, None) => config.byte_classes(false),
        (Keyword::Unicode, None) => config.unicode_word_boundary(true),
        (Keyword::Tags, None) => config.specialize_start_states(true),
        (Keyword::Skip, None) => config.skip_cache_capacity_check(true),
        (Keyword::Quit, Some(value)) => config.quit(hexadecimal_byte(value)?, true),
        (Keyword::Capacity, Some(value)) => config.cache_capacity(number(value)?),
        (Keyword::Limit, Some(value)) => config.minimum_cache_clear_count(Some(number(value)?)),
        (Keyword::PerState, Some(value)) => config.minimum_bytes_per_state(Some(number(value)?)),
        _ => return None,
    })
}

impl Query {
    /// Returns the input of the search.
    fn input(&self) -> Input<'_> {
        Input::new(self.haystack.as_slice())
            .span(self.span)
            .anchored(self.anchored)
            .earliest(self.earliest)
    }

    /// Reads the words of a query: a haystack, and options of its search.
    fn parse(alloc: Global, words: &[&[u8]]) -> Result<Query, LineError> {
        let (word, options) = words.split_first().ok_or(LineError::Bad)?;
        let haystack = haystack_of(alloc, *word)?;
        let span = Span {
            start: 0,
            end: haystack.len(),
        };
        let mut query = Query {
            haystack,
            span,
            anchored: Anchored::No,
            earliest: false,
        };
        for option in options {
            query.set(*option).ok_or(LineError::Bad)?;
        }
        Ok(query)
    }

    /// Sets an option of the search. Returns none if the word is not an option.
    fn set(&mut self, option: &[u8]) -> Option<()> {
        match option_of(option)? {
            (Keyword::Anchored, None) => self.anchored = Anchored::Yes,
            (Keyword::Earliest, None) => self.earliest = true,
            (Keyword::Span, Some(value)) => self.set_span(value)?,
            (Keyword::Pattern, Some(value)) => {
                let pattern = PatternID::new(number(value)?)?;
                self.anchored = Anchored::Pattern(pattern);
            }
            _ => return None,
        }
        Some(())
    }

    /// Sets the span from the text `START..END`, in bytes. Returns none if the text has another form, or if the input
    /// does not allow the span.
    fn set_span(&mut self, value: &[u8]) -> Option<()> {
        let (start, rest) = split_once(value, b'.')?;
        let (before, end) = split_once(rest, b'.')?;
        let span = Span {
            start: number(start)?,
            end: number(end)?,
        };
        let input = Input::new(self.haystack.as_slice());
        if !before.is_empty() || !input.allows(span.start, span.end) {
            return None;
        }
        self.span = span;
        Some(())
    }
}

/// Returns the bytes that pairs of hexadecimal digits spell; `-` is the empty haystack.
fn haystack_of(alloc: Global, word: &[u8]) -> Result<Vec<u8>, LineError> {
    let mut haystack = Vec::new(alloc);
    if word != b"-".as_slice() {
        push_pairs(&mut haystack, word)?;
    }
    Ok(haystack)
}

/// Appends the bytes that pairs of hexadecimal digits spell.
fn push_pairs(haystack: &mut Vec<u8>, word: &[u8]) -> Result<(), LineError> {
    haystack.reserve(word.len() / 2)?;
    for pair in word.chunks(2) {
        let byte = hexadecimal_byte(pair).ok_or(LineError::Bad)?;
        haystack.push(byte).map_err(AllocError::from)?;
    }
    Ok(())
}
