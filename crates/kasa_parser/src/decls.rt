// Declarations.
ghost use Rattle.std.specs.Prelude.{◌≡◌, ◌∷◌, []};
ghost use Rattle.std.specs.List.{list_any};
ghost use Rattle.kasa_syntax.specs.declared.tokens.TokenKind.TheVariants.{Name as name_kind, Number as number_kind, Quoted as quoted_kind, Percent as percent_kind, Arrow as arrow_kind, BothArrow as both_kind, Symbol as symbol_kind};
ghost use Rattle.kasa_parser.specs.Words.{Word, starts, only, has};
ghost use Rattle.kasa_parser.specs.Rules.{got, behind, maybe, word};
ghost use Rattle.kasa_parser.specs.Decls.{is_edited_site, is_mark, is_edited, state_names, states, links, site_decls, agent_text, agents, init_agents, rule_text, states_or_none, site_decl, quoted_of, state_name_of, last_or, counted, run_of, run_kinds, run_test, closed, arrow, body_behind, body, rate, count};
ghost use Rattle.kasa_parser.specs.Steps.{Gives};

use crate::reader::{Reader, Stop};
use crate::run::Run;
use kasa_syntax::{
    AgentDecl, AgentText, AgentTexts, Form, Item, Items, Mark, RuleText, SiteDecl, SiteDecls,
    SiteText, Span, Spans,
};
use std::alloc::Global;

fn is_edited_site(site: &SiteText) -> bool
    ensures { result ≡ is_edited_site site.now }
{
    let state = match site.state {
        None => false,
        Some(text) => text.right.is_some(),
    };
    let link = match site.link {
        None => false,
        Some(text) => text.right.is_some(),
    };
    state || link
}

fn has_edited_site(sites: &[SiteText]) -> bool
    ensures { result ≡ list_any is_edited_site sites.now }
{
    sites.iter().any(is_edited_site)
}

fn is_mark(mark: Mark) -> bool
    ensures { result ≡ is_mark mark }
{
    !matches!(mark, Mark::Plain)
}

// The item has a mark or a `/`, so no arrow may follow.
fn is_edited(item: &Item) -> bool
    ensures { result ≡ is_edited item.now }
{
    match item {
        Item::Absent => false,
        Item::Agent(agent) => is_mark(agent.mark) || has_edited_site(agent.sites.as_slice()),
    }
}

fn has_edited_item(items: &[Item]) -> bool
    ensures { result ≡ list_any is_edited items.now }
{
    items.iter().any(is_edited)
}

impl<'a> Reader<'a> {
    // ---- runs of words

    // Passes words of a run.
    pub fn run(&mut self, which: Run) -> Result<(), Stop>
        ensures { Gives ((run_of which).read self.old) result self.new }
    {
        while let Some(word) = self.peek() {
            if word.ends_run(which) {
                break;
            }
            if !word.is_in_run(which) {
                return Err(Stop::Stuck);
            }
            self.advance();
        }
        Ok(())
    }

    // Passes a count, and says whether its last word is `(`.
    pub fn count(&mut self) -> Result<bool, Stop>
        ensures { Gives (counted.read self.old) result self.new }
    {
        let mut after_open = false;
        while let Some(word) = self.peek() {
            let Some(is_open) = word.count() else {
                break;
            };
            after_open = is_open;
            self.advance();
        }
        Ok(after_open)
    }

    // ---- agent declarations

    fn state_name(&mut self) -> Result<Span, Stop>
        ensures { Gives ((word state_name_of).read self.old) result self.new }
    {
        let Some(word) = self.peek() else {
            return Err(Stop::Stuck);
        };
        let Some(name) = word.state_name() else {
            return Err(Stop::Stuck);
        };
        self.advance();
        Ok(name)
    }

    fn is_at_state_name(&self) -> bool
        ensures { result ≡ starts (only (name_kind ∷ number_kind ∷ [])) self.now }
    {
        match self.peek() {
            None => false,
            Some(word) => word.may_be_state_name(),
        }
    }

    fn is_at_next_state(&self) -> bool
        ensures { result ≡ starts (only (symbol_kind 44 ∷ name_kind ∷ number_kind ∷ [])) self.now }
    {
        self.is_at(b',') || self.is_at_state_name()
    }

    fn state_names(&mut self, alloc: Global) -> Result<Spans, Stop>
        ensures { Gives (state_names.read self.old) result self.new }
    {
        let mut states = Vec::new(alloc);
        if !self.is_at_state_name() {
            return Ok(Spans::new(states));
        }
        states.push(self.state_name()?)?;
        while self.is_at_next_state() {
            self.pass_comma();
            states.push(self.state_name()?)?;
        }
        Ok(Spans::new(states))
    }

    fn states(&mut self, alloc: Global) -> Result<Spans, Stop>
        ensures { Gives (states.read self.old) result self.new }
    {
        self.symbol(b'{')?;
        let states = self.state_names(alloc)?;
        self.symbol(b'}')?;
        Ok(states)
    }

    fn maybe_states(&mut self, alloc: Global) -> Result<Spans, Stop>
        ensures { Gives (behind ((maybe (only (symbol_kind 123 ∷ [])) states).read self.old) (λ s left. got (states_or_none s) left)) result self.new }
    {
        if self.is_at(b'{') {
            return self.states(alloc);
        }
        Ok(Spans::new(Vec::new(alloc)))
    }

    fn site_decl(&mut self, alloc: Global) -> Result<SiteDecl, Stop>
        ensures { Gives (site_decl.read self.old) result self.new }
    {
        let name = self.name()?;
        if self.is_at(b'[') {
            self.links()?;
            let states = self.maybe_states(alloc)?;
            return Ok(SiteDecl { name, states });
        }
        let is_first = self.is_at(b'{');
        let states = self.maybe_states(alloc)?;
        if is_first && self.is_at(b'[') {
            self.links()?;
        }
        Ok(SiteDecl { name, states })
    }

    fn site_decls(&mut self, alloc: Global) -> Result<SiteDecls, Stop>
        ensures { Gives (site_decls.read self.old) result self.new }
    {
        let mut sites = Vec::new(alloc);
        if !self.is_at_name() {
            return Ok(SiteDecls::new(sites));
        }
        sites.push(self.site_decl(alloc)?)?;
        while self.is_at_next_site() {
            self.pass_comma();
            sites.push(self.site_decl(alloc)?)?;
        }
        Ok(SiteDecls::new(sites))
    }

    pub fn agent_decl(&mut self, alloc: Global) -> Result<AgentDecl, Stop>
        ensures { Gives (agent_text.read self.old) result self.new }
    {
        self.symbol(b':')?;
        let name = self.name()?;
        self.symbol(b'(')?;
        let sites = self.site_decls(alloc)?;
        self.symbol(b')')?;
        Ok(AgentDecl { name, sites })
    }

    fn links(&mut self) -> Result<(), Stop>
        ensures { Gives (links.read self.old) result self.new }
    {
        self.symbol(b'[')?;
        self.run(Run::Links)?;
        self.symbol(b']')
    }

    // ---- inits

    // The parenthesis behind a complex, where one is open.
    fn closed(&mut self, is_open: bool) -> Result<(), Stop>
        ensures { Gives ((closed is_open).read self.old) result self.new }
    {
        if is_open { self.symbol(b')') } else { Ok(()) }
    }

    pub fn agents(&mut self, alloc: Global) -> Result<AgentTexts, Stop>
        ensures { Gives (agents.read self.old) result self.new }
    {
        let mut agents = Vec::new(alloc);
        agents.push(self.agent(alloc, false)?)?;
        while self.is_at_next_site() {
            self.pass_comma();
            agents.push(self.agent(alloc, false)?)?;
        }
        Ok(AgentTexts::new(agents))
    }

    pub fn init(&mut self, alloc: Global) -> Result<AgentTexts, Stop>
        ensures { Gives (init_agents.read self.old) result self.new }
    {
        self.symbol(b':')?;
        let after_open = self.count()?;
        let agents = self.agents(alloc)?;
        self.closed(after_open)?;
        Ok(agents)
    }

    // ---- rules

    fn is_at_arrow(&self) -> bool
        ensures { result ≡ starts (only (arrow_kind ∷ both_kind ∷ [])) self.now }
    {
        match self.peek() {
            None => false,
            Some(word) => word.is_arrow(),
        }
    }

    fn arrow(&mut self, alloc: Global, left: Items) -> Result<Form, Stop>
        ensures { Gives ((arrow left).read self.old) result self.new }
    {
        let Some(word) = self.peek() else {
            return Err(Stop::Stuck);
        };
        let Some(both) = word.arrow() else {
            return Err(Stop::Stuck);
        };
        self.advance();
        let right = self.items(alloc, false)?;
        Ok(Form::Arrow { left, right, both })
    }

    fn body(&mut self, alloc: Global) -> Result<Form, Stop>
        ensures { Gives (body.read self.old) result self.new }
    {
        let items = self.items(alloc, true)?;
        if items.as_slice().is_empty() {
            return self.arrow(alloc, items);
        }
        if !has_edited_item(items.as_slice()) && self.is_at_arrow() {
            return self.arrow(alloc, items);
        }
        Ok(Form::Edit(items))
    }

    // A rate, where one stands, which is not used.
    fn rate(&mut self) -> Result<(), Stop>
        ensures { Gives (behind (rate.read self.old) (λ some left. got tt left)) result self.new }
    {
        if self.is_at(b'@') {
            self.advance();
            self.run(Run::Rate)?;
        }
        Ok(())
    }

    // The quoted name of a rule, where one stands.
    fn quoted(&mut self) -> Option<Span>
        ensures { (maybe (only (quoted_kind ∷ [])) (word quoted_of)).read self.old ≡ got result self.new }
    {
        let word = self.peek()?;
        let name = word.quoted()?;
        self.advance();
        Some(name)
    }

    pub fn rule(&mut self, alloc: Global, start: Span) -> Result<RuleText, Stop>
        ensures { Gives (behind (rule_text.read self.old) (λ text left. got (text start) left)) result self.new }
    {
        let name = self.quoted();
        let form = self.body(alloc)?;
        self.rate()?;
        Ok(RuleText { start, name, form })
    }
}
