use lang_base::NoMemory;
use std::alloc::Global;

/// A list of nodes for each of so many webs. Two lists are made one in no time.
#[derive(Drop)]
pub(crate) struct Lists {
    firsts: Vec<Option<u32>>,
    lasts: Vec<Option<u32>>,
    sizes: Vec<u32>,
    nodes: Vec<u16>,
    nexts: Vec<Option<u32>>,
}

impl Lists {
    /// Empty lists.
    pub fn empty(alloc: Global, count: u16) -> Result<Lists, NoMemory> {
        let count = usize::from(count);
        Ok(Lists {
            firsts: vec![in alloc; None; count]?,
            lasts: vec![in alloc; None; count]?,
            sizes: vec![in alloc; 0; count]?,
            nodes: Vec::new(alloc),
            nexts: Vec::new(alloc),
        })
    }

    /// How many nodes are in a list.
    pub fn size(&self, web: u16) -> u32 {
        self.sizes.get(usize::from(web)).copied().unwrap_or(0)
    }

    /// Where the list begins.
    pub fn first(&self, web: u16) -> Option<u32> {
        self.firsts.get(usize::from(web)).copied().unwrap_or(None)
    }

    /// The node that stands here in its list, and where the list goes on.
    pub fn at(&self, at: u32) -> (u16, Option<u32>) {
        let node = self.nodes.get(at as usize).copied().unwrap_or(0);
        (node, self.nexts.get(at as usize).copied().unwrap_or(None))
    }

    fn last(&self, web: u16) -> Option<u32> {
        self.lasts.get(usize::from(web)).copied().unwrap_or(None)
    }

    fn begin(&mut self, web: u16, at: Option<u32>) {
        if let Some(first) = self.firsts.get_mut(usize::from(web)) {
            *first = at;
        }
    }

    fn end(&mut self, web: u16, at: Option<u32>) {
        if let Some(last) = self.lasts.get_mut(usize::from(web)) {
            *last = at;
        }
    }

    fn resize(&mut self, web: u16, size: u32) {
        if let Some(old) = self.sizes.get_mut(usize::from(web)) {
            *old = size;
        }
    }

    fn go_on(&mut self, at: u32, next: Option<u32>) {
        if let Some(old) = self.nexts.get_mut(at as usize) {
            *old = next;
        }
    }

    /// Puts a node before the others of a list.
    pub fn add(&mut self, web: u16, node: u16) -> Result<(), NoMemory> {
        let at = u32::try_from(self.nodes.len()).unwrap_or(u32::MAX);
        let next = self.first(web);
        self.nodes.push(node)?;
        self.nexts.push(next)?;
        self.begin(web, Some(at));
        if next.is_none() {
            self.end(web, Some(at));
        }
        self.resize(web, self.size(web).saturating_add(1));
        Ok(())
    }

    /// Puts the list of another behind that of a web; the other is empty then.
    pub fn take_over(&mut self, web: u16, other: u16) {
        let first = self.first(other);
        match self.last(web) {
            None => self.begin(web, first),
            Some(last) => self.go_on(last, first),
        }
        if first.is_some() {
            self.end(web, self.last(other));
        }
        self.resize(web, self.size(web).saturating_add(self.size(other)));
        self.begin(other, None);
        self.end(other, None);
        self.resize(other, 0);
    }
}
