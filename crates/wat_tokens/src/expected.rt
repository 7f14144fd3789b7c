// Tokens of a kind that has to stand next.
ghost use Rattle.std.specs.Prelude.{◌≡◌, ◌<◌, ℕ, List, length, true, false, IfOk, OnOk, OnErr};
ghost use Rattle.wat_grammar.specs.Fronts.{HasNotFirst, Starts};
ghost use Rattle.wat_grammar.specs.Tokens.{SpellsString, closing, opening, quoted, word as spelled_word};
ghost use Rattle.wat_tokens.specs.Kinds.{IsQuoted, IsWord};

use crate::token::Token;
use crate::tokens::{BadToken, Tokens};

impl<'a> Tokens<'a> {
    /// The word that stands next. After a fault it may have been passed, as by the calls below.
    pub fn next_word(&mut self) -> Result<&'a [u8], BadToken>
        ensures found { IfOk result (λ word. Starts (spelled_word word.now) self.old self.new) }
        ensures none { OnErr result (HasNotFirst IsWord self.old) }
        ensures shorter { OnOk result (length self.new < length self.old) }
    {
        match self.next()? {
            Some(Token::Word(word)) => Ok(word),
            Some(Token::Opening) => Err(BadToken),
            Some(Token::Closing) => Err(BadToken),
            Some(Token::Quoted(_)) => Err(BadToken),
            None => Err(BadToken),
        }
    }

    /// What stands between the quotation marks of the string that stands next.
    pub fn next_string(&mut self) -> Result<&'a [u8], BadToken>
        ensures found { IfOk result (λ inner. (content : List ℕ) × SpellsString inner.now content
            × Starts (quoted content) self.old self.new) }
        ensures none { OnErr result (HasNotFirst IsQuoted self.old) }
        ensures shorter { OnOk result (length self.new < length self.old) }
    {
        match self.next()? {
            Some(Token::Quoted(inner)) => Ok(inner),
            Some(Token::Opening) => Err(BadToken),
            Some(Token::Closing) => Err(BadToken),
            Some(Token::Word(_)) => Err(BadToken),
            None => Err(BadToken),
        }
    }

    /// Passes the opening parenthesis that stands next.
    pub fn expect_opening(&mut self) -> Result<(), BadToken>
        ensures found { OnOk result (Starts opening self.old self.new) }
        ensures none { OnErr result (HasNotFirst (λ token. token ≡ opening) self.old) }
        ensures shorter { OnOk result (length self.new < length self.old) }
    {
        match self.next()? {
            Some(Token::Opening) => Ok(()),
            Some(Token::Closing) => Err(BadToken),
            Some(Token::Quoted(_)) => Err(BadToken),
            Some(Token::Word(_)) => Err(BadToken),
            None => Err(BadToken),
        }
    }

    /// Passes the closing parenthesis that stands next.
    pub fn expect_closing(&mut self) -> Result<(), BadToken>
        ensures found { OnOk result (Starts closing self.old self.new) }
        ensures none { OnErr result (HasNotFirst (λ token. token ≡ closing) self.old) }
        ensures shorter { OnOk result (length self.new < length self.old) }
    {
        match self.next()? {
            Some(Token::Closing) => Ok(()),
            Some(Token::Opening) => Err(BadToken),
            Some(Token::Quoted(_)) => Err(BadToken),
            Some(Token::Word(_)) => Err(BadToken),
            None => Err(BadToken),
        }
    }

    /// Passes this word, which has to stand next.
    pub fn expect_word(&mut self, wanted: &[u8]) -> Result<(), BadToken>
        ensures found { OnOk result (Starts (spelled_word wanted.now) self.old self.new) }
        ensures none { OnErr result (HasNotFirst (λ token. token ≡ spelled_word wanted.now) self.old) }
        ensures shorter { OnOk result (length self.new < length self.old) }
    {
        let word = self.next_word()?;
        if word == wanted {
            Ok(())
        } else {
            Err(BadToken)
        }
    }

    /// Whether an opening parenthesis stands next.
    pub fn is_opening(&self) -> bool
        ensures yes { result ≡ true → (rest : List ℕ) × Starts opening self.now rest }
        ensures no { result ≡ false → HasNotFirst (λ token. token ≡ opening) self.now }
    {
        let mut ahead = self.ahead();
        ahead.expect_opening().is_ok()
    }
}
