// What is replied to a sheet, and how long its text is: laws only.
#![tactic(auto)]
