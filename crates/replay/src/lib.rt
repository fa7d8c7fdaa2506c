//! A list of requests to regexes, answered in turn over one cache: each reply is its request's own value, whatever was
//! asked before.
#![tactic(auto)]

ghost use Rattle.std.specs.Prelude.{[], IfOk};
ghost use Rattle.replay.specs.Histories.{start};
ghost use Rattle.replay.specs.Replies.{AreReplies, ReportWalks};
ghost use Rattle.replay.specs.Caches.{AreAnswered, AreAnsweredAfter};
ghost use Rattle.replay.specs.Players.{HasPlayed};

mod iteration;
mod patterns;
mod players;
mod requests;
mod tokens;
mod walks;

use players::Player;
use regex_automata::hybrid::regex::Regex;
use regex_automata::laws::regex_caches_are_known;
pub use requests::{Fault, Reply, Request};
use std::alloc::{AllocError, Global};

/// Returns one reply for each request, in order. Each is its request's own value, whatever came before.
///
/// One cache serves all requests. At first it belongs to regex 0, which is the current one. If there is no regex, each
/// reply is `Fault::NoRegex`. The call fails only if that cache or the list of replies cannot be allocated; if a
/// request runs out of memory, its reply reports it.
pub fn replay(
    alloc: Global,
    regexes: &[Regex],
    script: &[Request<'_>],
) -> Result<Vec<Reply>, AllocError>
    // Each reply is its request's own value, or an error of the request's own call. A bad request has the reply `Bad`,
    // and changes nothing.
    ensures replies { IfOk result (λ replies. AreReplies regexes.now script.now replies.items) }

    // The Ok replies to the steps of a walk are, in order, the matches of its list, and then none.
    ensures walks { IfOk result (λ replies. ReportWalks regexes.now script.now replies.items) }

    // One cache serves all requests, within the settings of the current regex. It is fresh at first and after an Ok
    // reset. An error comes from a call on the cache as the previous request left it.
    ensures made { IfOk result (λ replies. AreAnswered regexes.now script.now replies.items) }
{
    match regexes.first() {
        Some(regex) => answer_all(alloc, Player::new(alloc, regexes, regex)?, script),
        None => refuse_all(alloc, script),
    }
}

/// Answers one request after another.
fn answer_all<'h>(
    alloc: Global,
    mut player: Player<'_, 'h>,
    script: &[Request<'h>],
) -> Result<Vec<Reply>, AllocError>
    requires { HasPlayed start player }
    ensures returned { IfOk result (λ replies. AreReplies player.entry.regexes.now script.now replies.items) }
    ensures made { IfOk result (λ replies. AreAnsweredAfter player.entry.regexes.now start player.entry.cache script.now
        replies.items) }
{
    let mut replies = Vec::new(alloc);
    for request in script {
        let reply = player.answer(request);
        regex_caches_are_known(player.regex, &player.cache);
        replies.push(reply)?;
    }
    Ok(replies)
}

/// Replies `Fault::NoRegex` to each request.
fn refuse_all(alloc: Global, script: &[Request<'_>]) -> Result<Vec<Reply>, AllocError>
    ensures { IfOk result (λ replies. AreReplies [] script.now replies.items) }
{
    let mut replies = Vec::new(alloc);
    for _request in script {
        replies.push(Reply::Bad(Fault::NoRegex))?;
    }
    Ok(replies)
}
