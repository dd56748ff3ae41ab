//! Terms in prefix notation, read from the last word to the first.
use crate::basic::basic;
use crate::refusal::Refusal;
use go_base::list::List;
use go_base::shared::Shared;
use go_base::text::Text;
use go_model::types::names::{Sel, TypeName};
use go_model::types::package::MethodOf;
use go_model::types::term::{Direction, Field, Method, Signature, Term};
use hex::FromHexError;
use std::alloc::Global;

fn number(digits: &str) -> Result<u64, Refusal> {
    match digits.parse::<u64>() {
        Ok(number) => Ok(number),
        Err(_) => Err(Refusal::WrongLine),
    }
}

/// The parts of a line before and after its first blank.
pub fn split(words: &str) -> Result<(&str, &str), Refusal> {
    match words.split_once(' ') {
        Some(parts) => Ok(parts),
        None => Err(Refusal::WrongLine),
    }
}

/// The text that a word is.
pub fn text(alloc: Global, word: &str) -> Result<Text, Refusal> {
    Ok(Text::of(alloc, word.as_bytes())?)
}

/// The selector that a word is.
pub fn sel(alloc: Global, word: &str) -> Result<Sel, Refusal> {
    let (package, name) = match word.rsplit_once('.') {
        Some(parts) => parts,
        None => ("", word),
    };
    Ok(Sel {
        name: text(alloc, name)?,
        package: text(alloc, package)?,
    })
}

/// The name that a word is.
pub fn type_name(alloc: Global, word: &str) -> Result<TypeName, Refusal> {
    let (path, name) = match word.rsplit_once('.') {
        Some(parts) => parts,
        None => return Err(Refusal::WrongLine),
    };
    Ok(TypeName {
        path: text(alloc, path)?,
        name: text(alloc, name)?,
    })
}

fn error_name(alloc: Global) -> Result<TypeName, Refusal> {
    Ok(TypeName {
        path: text(alloc, "")?,
        name: text(alloc, "error")?,
    })
}

/// The bytes with these hexadecimal digits.
pub fn bytes(alloc: Global, digits: &str) -> Result<Text, Refusal> {
    match hex::decode(alloc, digits) {
        Ok(bytes) => Ok(Text::from_vec(alloc, bytes)?),
        Err(FromHexError::OutOfMemory) => Err(Refusal::NoMemory),
        Err(_) => Err(Refusal::WrongLine),
    }
}

// The last so many items, from the last one on, in a list that has room for no more.
fn take<T: Drop>(alloc: Global, items: &mut Vec<T>, count: u64) -> Result<List<T>, Refusal> {
    if count > items.len() as u64 {
        return Err(Refusal::WrongLine);
    }
    let mut taken = Vec::with_capacity(alloc, count as usize)?;
    for _ in 0..count {
        if let Some(item) = items.pop() {
            taken.push(item)?;
        }
    }
    Ok(List::from_vec(taken))
}

/// What the words on the right are, the leftmost last. It is used for one line after the other, so that
/// no memory of its own stands between the types that stay.
#[derive(Drop)]
pub struct Stack {
    terms: Vec<Term>,
    fields: Vec<Field>,
    methods: Vec<Method>,
    declared: Vec<MethodOf>,
}

impl Stack {
    /// Nothing.
    pub fn new(alloc: Global) -> Stack {
        Stack {
            terms: Vec::new(alloc),
            fields: Vec::new(alloc),
            methods: Vec::new(alloc),
            declared: Vec::new(alloc),
        }
    }

    /// Adds what the words of a text are.
    pub fn read_all(&mut self, alloc: Global, text: &str) -> Result<(), Refusal> {
        for word in text.rsplit(' ') {
            self.read(alloc, word)?;
        }
        Ok(())
    }

    // The leftmost term.
    fn term(&mut self) -> Result<Term, Refusal> {
        match self.terms.pop() {
            Some(term) => Ok(term),
            None => Err(Refusal::WrongLine),
        }
    }

    /// The leftmost term, on the heap. A term by value is given up variant by variant.
    pub fn boxed(&mut self, alloc: Global) -> Result<Shared<Term>, Refusal> {
        let term = self.term()?;
        Ok(Shared::new(alloc, term)?)
    }

    /// The one term that the words of a text are, on the heap.
    pub fn one(&mut self, alloc: Global, words: &str) -> Result<Shared<Term>, Refusal> {
        self.read_all(alloc, words)?;
        let term = self.boxed(alloc)?;
        self.end()?;
        Ok(term)
    }

    /// The declared methods.
    pub fn declared(&mut self, alloc: Global) -> Result<List<MethodOf>, Refusal> {
        let count = self.declared.len() as u64;
        take(alloc, &mut self.declared, count)
    }

    /// Refuses what nothing has taken.
    pub fn end(&self) -> Result<(), Refusal> {
        if self.terms.is_empty()
            && self.fields.is_empty()
            && self.methods.is_empty()
            && self.declared.is_empty()
        {
            return Ok(());
        }
        Err(Refusal::WrongLine)
    }

    fn called(&mut self) -> Result<Signature, Refusal> {
        let term = self.term()?;
        match term.into_signature() {
            Some(signature) => Ok(signature),
            None => Err(Refusal::WrongLine),
        }
    }

    fn signature(
        &mut self,
        alloc: Global,
        variadic: bool,
        counts: &str,
    ) -> Result<Signature, Refusal> {
        let (params, results) = match counts.split_once(':') {
            Some(parts) => parts,
            None => return Err(Refusal::WrongLine),
        };
        let params = take(alloc, &mut self.terms, number(params)?)?;
        let results = take(alloc, &mut self.terms, number(results)?)?;
        Ok(Signature {
            params: Shared::new(alloc, params)?,
            variadic,
            results: Shared::new(alloc, results)?,
        })
    }

    fn add_field(&mut self, alloc: Global, embedded: bool, parts: &str) -> Result<(), Refusal> {
        let (selector, digits) = match parts.split_once(':') {
            Some(parts) => parts,
            None => return Err(Refusal::WrongLine),
        };
        let sel = sel(alloc, selector)?;
        let tag = bytes(alloc, digits)?;
        let term = self.term()?;
        self.fields.push(Field {
            sel,
            embedded,
            term,
            tag,
        })?;
        Ok(())
    }

    fn add_method(&mut self, alloc: Global, selector: &str) -> Result<(), Refusal> {
        let sel = sel(alloc, selector)?;
        let signature = self.called()?;
        self.methods.push(Method { sel, signature })?;
        Ok(())
    }

    fn add_declared(
        &mut self,
        alloc: Global,
        pointer: bool,
        selector: &str,
    ) -> Result<(), Refusal> {
        let sel = sel(alloc, selector)?;
        let signature = self.called()?;
        self.declared.push(MethodOf {
            sel,
            pointer,
            signature,
        })?;
        Ok(())
    }

    // A type whose word has no parts.
    fn plain(&mut self, alloc: Global, word: &str) -> Result<Term, Refusal> {
        if let Some(known) = basic(word) {
            return Ok(Term::Plain(known));
        }
        match word {
            "error" => Ok(Term::Named(error_name(alloc)?)),
            "pointer" => Ok(Term::Pointer(self.boxed(alloc)?)),
            "slice" => Ok(Term::Slice(self.boxed(alloc)?)),
            "chan" => Ok(Term::Chan(Direction::Both, self.boxed(alloc)?)),
            "send" => Ok(Term::Chan(Direction::SendOnly, self.boxed(alloc)?)),
            "receive" => Ok(Term::Chan(Direction::ReceiveOnly, self.boxed(alloc)?)),
            "map" => {
                let key = self.boxed(alloc)?;
                let element = self.boxed(alloc)?;
                Ok(Term::Map(key, element))
            }
            _ => Ok(Term::Named(type_name(alloc, word)?)),
        }
    }

    // A type whose word has parts.
    fn counted(&mut self, alloc: Global, kind: &str, parts: &str) -> Result<Term, Refusal> {
        match kind {
            "array" => Ok(Term::Array(number(parts)?, self.boxed(alloc)?)),
            "struct" => {
                let fields = take(alloc, &mut self.fields, number(parts)?)?;
                Ok(Term::Struct(Shared::new(alloc, fields)?))
            }
            "interface" => {
                let methods = take(alloc, &mut self.methods, number(parts)?)?;
                Ok(Term::Interface(Shared::new(alloc, methods)?))
            }
            "func" => Ok(Term::Func(self.signature(alloc, false, parts)?)),
            "variadic" => Ok(Term::Func(self.signature(alloc, true, parts)?)),
            _ => Err(Refusal::WrongLine),
        }
    }

    fn read(&mut self, alloc: Global, word: &str) -> Result<(), Refusal> {
        let (kind, parts) = match word.split_once(':') {
            Some(parts) => parts,
            None => {
                let term = self.plain(alloc, word)?;
                self.terms.push(term)?;
                return Ok(());
            }
        };
        match kind {
            "field" => self.add_field(alloc, false, parts),
            "embedded" => self.add_field(alloc, true, parts),
            "method" => self.add_method(alloc, parts),
            "on-value" => self.add_declared(alloc, false, parts),
            "on-pointer" => self.add_declared(alloc, true, parts),
            _ => {
                let term = self.counted(alloc, kind, parts)?;
                self.terms.push(term)?;
                Ok(())
            }
        }
    }
}
