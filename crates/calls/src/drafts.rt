// The lists that a line lends to a reduction, made for the line that has them.

use crate::{LIST, LOG};
use forms::read;
use terms::Lists;

#[derive(Drop)]
pub(crate) struct Drafts {
    order: [u16; LIST],
    listed: [u16; LIST],
    extra: [u16; LIST],
}

impl Drafts {
    pub(crate) fn new() -> Drafts {
        Drafts {
            order: [0u16; LIST],
            listed: [0u16; LIST],
            extra: [0u16; LIST],
        }
    }

    // The lists that stand in the line, and the place behind them.
    pub(crate) fn read<'a>(&'a mut self, s: &[u8], at: usize) -> Option<(Lists<'a>, usize)> {
        let (l, at) = read::read_lists(s, at, &mut self.order, &mut self.listed, &mut self.extra)?;
        let lists = Lists {
            order: &self.order[0..l.order],
            listed: &self.listed[0..l.listed],
            extra: &self.extra[0..l.extra],
        };
        Some((lists, at))
    }

    // The lists, and as much of the log as the number behind them says. The line ends there.
    pub(crate) fn read_asked<'a>(
        &'a mut self,
        s: &[u8],
        at: usize,
        log: &'a mut [u16; LOG],
    ) -> Option<(Lists<'a>, &'a mut [u16])> {
        let (lists, at) = self.read(s, at)?;
        let u = read::last(s, read::number(s, at, LOG))?;
        Some((lists, &mut log[0..u]))
    }
}
