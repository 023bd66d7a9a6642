// What any call writes passes the checks of a reader: the laws are in specs/.
#![tactic(auto)]
