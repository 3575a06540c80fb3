// Document 01's worked pages that are marked as proved: one table under one claim, in specs/Laws/Pages.antt. The program `worked_pages`
// runs them.
#![tactic(auto)]
