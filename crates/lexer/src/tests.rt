//! Tokens, compared with those that flex returns for the same rules.
use super::*;
use patterns::Options;
use regex_automata::tokens::TokenError;
use std::alloc::Global;
use std::fmt::Write;
use std::test::Fail;

/// A keyword is a rule before the names.
const RULES: [Rule<'static>; 6] = [
    Rule {
        name: "if",
        pattern: "if",
    },
    Rule {
        name: "name",
        pattern: r"[\pL_][\pL\p{Nd}_]*",
    },
    Rule {
        name: "number",
        pattern: r"[0-9]+|[0-9]+\.[0-9]+",
    },
    Rule {
        name: "operator",
        pattern: "<|<=|==?",
    },
    Rule {
        name: "comment",
        pattern: r"/\*(?s:.)*?\*/",
    },
    Rule {
        name: "blank",
        pattern: r"\s*",
    },
];

/// A text, its tokens by the first rule that matches, and by the longest match.
const TEXTS: [(&str, &str, &str); 7] = [
    ("if", "if:if ", "if:if "),
    ("ifé", "if:if name:é ", "name:ifé "),
    (
        "a<=1.5",
        "name:a operator:< operator:= number:1 ?4 number:5 ",
        "name:a operator:<= number:1.5 ",
    ),
    (
        "/*a*/b*/",
        "comment:/*a*/ name:b ?6 ?7 ",
        "comment:/*a*/b*/ ",
    ),
    ("if if", "if:if blank:  if:if ", "if:if blank:  if:if "),
    ("x§y", "name:x ?1 name:y ", "name:x ?1 name:y "),
    ("", "", ""),
];

/// Shows the tokens of a text, and each offset without one.
fn shown(alloc: Global, prefer: Prefer, text: &str) -> Result<String, Fail> {
    let lexer = Lexer::new(alloc, &RULES, prefer, &Options::default())?;
    let mut cache = lexer.create_cache()?;
    let mut shown = String::new(alloc);
    for item in lexer.tokens_and_gaps(&mut cache, text.as_bytes()) {
        match item {
            Ok(token) => {
                let name = lexer.name(token.pattern()).unwrap_or("");
                let part = text.get(token.start()..token.end()).unwrap_or("");
                write!(shown, "{name}:{part} ")?;
            }
            Err(TokenError::NoToken(at)) => write!(shown, "?{at} ")?,
            Err(TokenError::Search(error)) => return Err(error.into()),
        }
    }
    Ok(shown)
}

#[test]
fn tokens_are_those_of_flex(rt: HostRuntime) -> Result<(), Fail> {
    for (text, first, longest) in TEXTS {
        let found = shown(rt.alloc(), Prefer::First, text)?;
        assert_eq!(rt; found.as_str(), first, "{text}");
        let found = shown(rt.alloc(), Prefer::Longest, text)?;
        assert_eq!(rt; found.as_str(), longest, "{text}");
    }
    Ok(())
}
