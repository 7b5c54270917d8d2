// Site F's sheet, as its text says it.
use crate::worked::SITE_F;
use prefix::Prefix;
use sheet::Rule;
use sheet_text::read_sheet;
use std::alloc::Global;

const RULE_COUNT: usize = 4;

pub(crate) struct SiteF {
    pub(crate) prefix: Prefix,
    pub(crate) rules: Vec<Rule>,
}

impl SiteF {
    pub(crate) fn read(heap: Global) -> anyhow::Result<SiteF> {
        let mut rules = vec![in heap; Rule::empty(); RULE_COUNT]?;
        let reading = read_sheet(SITE_F, &mut rules)?;
        let prefix = reading.prefix;
        Ok(SiteF { prefix, rules })
    }
}
