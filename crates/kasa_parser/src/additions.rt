// Additions of `%mod` declarations.
ghost use Rattle.std.specs.Prelude.{◌≡◌, true, false};
ghost use Rattle.kasa_parser.specs.Decls.{closing, ended_agent, added, addition, behind_dollar, dollar_part, dollar_parts, mod_text};
ghost use Rattle.kasa_parser.specs.Steps.{Gives, Adds};

use crate::reader::{Reader, Stop};
use crate::run::{DollarWord, Run};
use kasa_syntax::{AgentText, AgentTexts, Decl, InitDecl, Mark, Span};
use std::alloc::Global;

// An agent, and the offset where it ends.
#[derive(Drop)]
pub struct EndedAgent {
    pub agent: AgentText,
    pub end: u32,
}

impl<'a> Reader<'a> {
    // ---- complexes

    // Passes a `)`, and says where it ends.
    fn closing(&mut self) -> Result<u32, Stop>
        ensures { Gives (closing.read self.old) result self.new }
    {
        let Some(word) = self.peek() else {
            return Err(Stop::Stuck);
        };
        let Some(end) = word.closing() else {
            return Err(Stop::Stuck);
        };
        self.advance();
        Ok(end)
    }

    fn ended_agent(&mut self, alloc: Global) -> Result<EndedAgent, Stop>
        ensures { Gives (ended_agent.read self.old) result self.new }
    {
        let name = self.name()?;
        self.symbol(b'(')?;
        let sites = self.sites(alloc, false)?;
        let end = self.closing()?;
        let agent = AgentText {
            name,
            sites,
            mark: Mark::Plain,
        };
        Ok(EndedAgent { agent, end })
    }

    // A complex in parentheses, behind the first of them, and the skipped words behind it.
    fn in_parentheses(&mut self, alloc: Global, start: u32) -> Result<InitDecl, Stop>
        ensures { Gives ((added start true).read self.old) result self.new }
    {
        let agents = self.agents(alloc)?;
        let end = self.closing()?;
        self.run(Run::Mod)?;
        Ok(InitDecl {
            start: Span { start, end },
            agents,
        })
    }

    // A complex without parentheses, and the skipped words behind it.
    fn as_long_as_agents(&mut self, alloc: Global, start: u32) -> Result<InitDecl, Stop>
        ensures { Gives ((added start false).read self.old) result self.new }
    {
        let mut agents = Vec::new(alloc);
        let EndedAgent { agent, mut end } = self.ended_agent(alloc)?;
        agents.push(agent)?;
        while self.is_at_next_agent() {
            self.pass_comma();
            let next = self.ended_agent(alloc)?;
            agents.push(next.agent)?;
            end = next.end;
        }
        self.run(Run::Mod)?;
        Ok(InitDecl {
            start: Span { start, end },
            agents: AgentTexts::new(agents),
        })
    }

    // What stands behind the `$ADD` that begins at an offset.
    fn addition(&mut self, alloc: Global, start: u32) -> Result<InitDecl, Stop>
        ensures { Gives ((addition start).read self.old) result self.new }
    {
        if self.count()? {
            self.in_parentheses(alloc, start)
        } else {
            self.as_long_as_agents(alloc, start)
        }
    }

    // ---- declarations

    // A word with `$` and what stands behind it, up to the next one.
    fn dollar_part(&mut self, alloc: Global, decls: &mut Vec<Decl>) -> Result<(), Stop>
        ensures { Adds (dollar_part.read self.old) decls.old.items result decls.new.items self.new }
    {
        let Some(word) = self.peek() else {
            return Err(Stop::Stuck);
        };
        let Some(dollar) = word.dollar() else {
            return Err(Stop::Stuck);
        };
        self.advance();
        match dollar {
            DollarWord::Addition(start) => decls.push(Decl::Add(self.addition(alloc, start)?))?,
            DollarWord::Other => self.run(Run::Mod)?,
        }
        Ok(())
    }

    fn dollar_parts(&mut self, alloc: Global, decls: &mut Vec<Decl>) -> Result<(), Stop>
        ensures { Adds (dollar_parts.read self.old) decls.old.items result decls.new.items self.new }
    {
        while self.is_at_dollar() {
            self.dollar_part(alloc, decls)?;
        }
        Ok(())
    }

    // What stands behind `%mod`.
    pub fn mod_text(&mut self, alloc: Global, decls: &mut Vec<Decl>) -> Result<(), Stop>
        ensures { Adds (mod_text.read self.old) decls.old.items result decls.new.items self.new }
    {
        self.symbol(b':')?;
        self.run(Run::Mod)?;
        self.dollar_parts(alloc, decls)
    }
}
