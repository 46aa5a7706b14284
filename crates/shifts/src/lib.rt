// What any number of scans since log-in come to: statements about the answers of scans, in specs/.
#![tactic(auto)]
