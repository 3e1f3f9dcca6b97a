//! Where `_`, `^` and `$` may stand in the pattern of a rule or of a demand.
ghost use Rattle.std.specs.Prelude.{◌≡◌, ◌+◌, ◌<◌, ◌≤◌, ◌^◌, false};
ghost use Rattle.ruleset_text.specs.PatternSigns as words;

use crate::token::Token;

/// How many groups are open, and whether `_` was read in the context that is being read.
#[derive(Clone, Copy, PartialEq, Eq)]
pub struct Signs {
    pub groups: usize,
    pub passed: bool,
}

impl Signs {
    pub fn new() -> Self
        ensures groups { result.groups ≡ 0 }
        ensures passed { result.passed ≡ false }
    {
        Signs {
            groups: 0,
            passed: false,
        }
    }

    /// Whether a token may stand there: in a rule `_` once in each context, in no group, `^` before it alone and `$`
    /// after it; in a demand no `_`.
    pub fn may_stand(self, is_rule: bool, token: Token) -> bool
        ensures { result ≡ words.may_stand is_rule self.groups self.passed token }
    {
        match token {
            Token::Start => !is_rule || !self.passed,
            Token::End => !is_rule || self.passed,
            Token::Anchor => is_rule && self.groups == 0 && !self.passed,
            Token::Or => self.groups != 0 || self.passed || !is_rule,
            Token::Other => false,
            Token::Point(_) | Token::Set(_) | Token::Any => true,
            Token::Open | Token::Close | Token::Optional | Token::Many => true,
        }
    }

    pub fn after(self, token: Token) -> Self
        requires { self.groups + 1 < 2 ^ 64 }
        ensures groups { result.groups ≡ words.groups_after self.groups token }
        ensures passed { result.passed ≡ words.passed_after self.groups self.passed token }
        ensures few { result.groups ≤ self.groups + 1 }
    {
        match token {
            Token::Open => Signs {
                groups: self.groups + 1,
                passed: self.passed,
            },
            Token::Close => Signs {
                groups: self.groups.saturating_sub(1),
                passed: self.passed,
            },
            Token::Anchor => Signs {
                groups: self.groups,
                passed: true,
            },
            Token::Or => Signs {
                groups: self.groups,
                passed: self.groups != 0 && self.passed,
            },
            _ => self,
        }
    }
}
