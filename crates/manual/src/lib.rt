#![tactic(auto)]

//! The manual (M68000PM/AD, MC68000) as definitions: its instructions, their fields and their words stand in specs/.
