//! What a monitor keeps: cores, jobs, files and drafts, consoles, links, lists. The cores of jobs
//! (`its_core`), the table of jobs (`its_jobs`), files and drafts (`its_files`), consoles
//! (`its_console`), links (`its_pipes`), and lists of nodes (`its_links`).
#![tactic(auto)]

#[cfg(test)]
mod consoles;
#[cfg(test)]
mod cores;
#[cfg(test)]
mod files;
#[cfg(test)]
mod jobs;
#[cfg(test)]
mod links;
#[cfg(test)]
mod lists;
