// Agents, their sites, and items.
ghost use Rattle.std.specs.Prelude.{◌≡◌, ◌∷◌, []};
ghost use Rattle.kasa_syntax.specs.declared.tokens.TokenKind.TheVariants.{Name as name_kind, Symbol as symbol_kind};
ghost use Rattle.kasa_parser.specs.Words.{starts, only};
ghost use Rattle.kasa_parser.specs.Rules.Outcome.{got};
ghost use Rattle.kasa_parser.specs.Steps.{Gives};
ghost use Rattle.kasa_parser.specs.Grammar.{state_word, link_word, right, state, link_text, site, sites, mark, agent, item, items};

use crate::reader::{Reader, Stop};
use kasa_syntax::{
    AgentText, Item, Items, LinkText, LinkWord, Mark, SiteText, SiteTexts, StateText, StateWord,
};
use std::alloc::Global;

impl<'a> Reader<'a> {
    // ---- states and links

    fn state_word(&mut self) -> Result<StateWord, Stop>
        ensures { Gives (state_word.read self.old) result self.new }
    {
        let Some(word) = self.peek() else {
            return Err(Stop::Stuck);
        };
        let Some(state) = word.state() else {
            return Err(Stop::Stuck);
        };
        self.advance();
        Ok(state)
    }

    // The state behind a `/`, where one may stand.
    fn right_state(&mut self, edit: bool) -> Result<Option<StateWord>, Stop>
        ensures { Gives ((right edit state_word).read self.old) result self.new }
    {
        if !edit || !self.is_at(b'/') {
            return Ok(None);
        }
        self.symbol(b'/')?;
        Ok(Some(self.state_word()?))
    }

    fn state(&mut self, edit: bool) -> Result<StateText, Stop>
        ensures { Gives ((state edit).read self.old) result self.new }
    {
        self.symbol(b'{')?;
        let left = self.state_word()?;
        let right = self.right_state(edit)?;
        self.symbol(b'}')?;
        Ok(StateText { left, right })
    }

    fn link_word(&mut self) -> Result<LinkWord, Stop>
        ensures { Gives (link_word.read self.old) result self.new }
    {
        if self.is_at_name() {
            let site = self.name()?;
            self.symbol(b'.')?;
            let agent = self.name()?;
            return Ok(LinkWord::Partner { site, agent });
        }
        let Some(word) = self.peek() else {
            return Err(Stop::Stuck);
        };
        let Some(link) = word.link() else {
            return Err(Stop::Stuck);
        };
        self.advance();
        Ok(link)
    }

    // The link behind a `/`, where one may stand.
    fn right_link(&mut self, edit: bool) -> Result<Option<LinkWord>, Stop>
        ensures { Gives ((right edit link_word).read self.old) result self.new }
    {
        if !edit || !self.is_at(b'/') {
            return Ok(None);
        }
        self.symbol(b'/')?;
        Ok(Some(self.link_word()?))
    }

    fn link_text(&mut self, edit: bool) -> Result<LinkText, Stop>
        ensures { Gives ((link_text edit).read self.old) result self.new }
    {
        self.symbol(b'[')?;
        let left = self.link_word()?;
        let right = self.right_link(edit)?;
        self.symbol(b']')?;
        Ok(LinkText { left, right })
    }

    // ---- sites

    fn site(&mut self, edit: bool) -> Result<SiteText, Stop>
        ensures { Gives ((site edit).read self.old) result self.new }
    {
        let name = self.name()?;
        let mut site = SiteText {
            name,
            state: None,
            link: None,
        };
        if self.is_at(b'{') {
            site.state = Some(self.state(edit)?);
            if self.is_at(b'[') {
                site.link = Some(self.link_text(edit)?);
            }
        } else if self.is_at(b'[') {
            site.link = Some(self.link_text(edit)?);
            if self.is_at(b'{') {
                site.state = Some(self.state(edit)?);
            }
        }
        Ok(site)
    }

    // A site goes on with a comma or its name.
    pub fn is_at_next_site(&self) -> bool
        ensures { result ≡ starts (only (symbol_kind 44 ∷ name_kind ∷ [])) self.now }
    {
        self.is_at(b',') || self.is_at_name()
    }

    // The sites of an agent.
    pub fn sites(&mut self, alloc: Global, edit: bool) -> Result<SiteTexts, Stop>
        ensures { Gives ((sites edit).read self.old) result self.new }
    {
        let mut sites = Vec::new(alloc);
        if !self.is_at_name() {
            return Ok(SiteTexts::new(sites));
        }
        sites.push(self.site(edit)?)?;
        while self.is_at_next_site() {
            self.pass_comma();
            sites.push(self.site(edit)?)?;
        }
        Ok(SiteTexts::new(sites))
    }

    // ---- agents and items

    fn mark(&mut self, edit: bool) -> Mark
        ensures { (mark edit).read self.old ≡ got result self.new }
    {
        if edit && self.is_at(b'+') {
            self.advance();
            return Mark::Plus;
        }
        if edit && self.is_at(b'-') {
            self.advance();
            return Mark::Minus;
        }
        Mark::Plain
    }

    pub fn agent(&mut self, alloc: Global, edit: bool) -> Result<AgentText, Stop>
        ensures { Gives ((agent edit).read self.old) result self.new }
    {
        let name = self.name()?;
        self.symbol(b'(')?;
        let sites = self.sites(alloc, edit)?;
        self.symbol(b')')?;
        let mark = self.mark(edit);
        Ok(AgentText { name, sites, mark })
    }

    fn is_at_item(&self) -> bool
        ensures { result ≡ starts (only (name_kind ∷ symbol_kind 46 ∷ [])) self.now }
    {
        self.is_at_name() || self.is_at(b'.')
    }

    fn is_at_next_item(&self) -> bool
        ensures { result ≡ starts (only (symbol_kind 44 ∷ name_kind ∷ symbol_kind 46 ∷ [])) self.now }
    {
        self.is_at(b',') || self.is_at_item()
    }

    fn item(&mut self, alloc: Global, edit: bool) -> Result<Item, Stop>
        ensures { Gives ((item edit).read self.old) result self.new }
    {
        if self.is_at_name() {
            return Ok(Item::Agent(self.agent(alloc, edit)?));
        }
        if !self.is_at(b'.') {
            return Err(Stop::Stuck);
        }
        self.advance();
        Ok(Item::Absent)
    }

    pub fn items(&mut self, alloc: Global, edit: bool) -> Result<Items, Stop>
        ensures { Gives ((items edit).read self.old) result self.new }
    {
        let mut items = Vec::new(alloc);
        if !self.is_at_item() {
            return Ok(Items::new(items));
        }
        items.push(self.item(alloc, edit)?)?;
        while self.is_at_next_item() {
            self.pass_comma();
            items.push(self.item(alloc, edit)?)?;
        }
        Ok(Items::new(items))
    }
}
